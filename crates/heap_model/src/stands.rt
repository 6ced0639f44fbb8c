//! What a state of a layer stands for.

/// A state of the variable-size layer, of the back end or of the large blocks. It tells to which lock it belongs, the
/// limits that it was made for, and the part of the heap that its lock guards.
pub trait Stands {
    ghost use Rattle.heap_model.specs.Layers.{LayerState};

    ghost stands: { Self → LayerState };
}
