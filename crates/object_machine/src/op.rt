use rs_code::Blob;
use smore_base::Bytes;

/// A call on the store.
#[derive(Debug, Drop)]
pub enum Op {
    /// Gives the name an object, which is cut and coded as those of the machine are.
    Put { name: Bytes, object: Blob },
    /// Asks for the name's object.
    Get { name: Bytes },
    /// Takes the name's object away.
    Delete { name: Bytes },
    /// Asks for the names above this one in byte order that have an object, for so many of them at most.
    List { after: Bytes, limit: u16 },
}
