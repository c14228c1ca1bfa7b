/// A property of what an array's devices hold, by a value such as a map before a call and one after it, for laws that hold
/// of any such property.
pub trait Property {
    ghost use Rattle.zone_bay.specs.Contents.{Shape, Contents};
    ghost use Rattle.marker_format.specs.Zone.{Array};

    /// By this value it holds of these contents, on a bay of this shape.
    ghost holds: { Self → Array → Shape → Contents → Type 0 };
}
