use object_machine::Op;

/// What a frame asks for.
#[derive(Debug, Drop)]
pub enum Request {
    Call { op: Op },
    Stop,
}
