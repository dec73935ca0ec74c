//! Elements that are given to be written.

ghost use Rattle.std.specs.Prelude.{◌≡◌, ◌<◌, List, length, Some, slice_get};
ghost use Rattle.rtp_ext.specs.ElementsInARow.{elements_of};

/// Elements in order, each an id and its data, that are given to be written. A slice of pairs of an
/// id and its data is such a list.
pub trait ElementList: Copy {
    ghost use Rattle.rtp_ext.specs.Elements.{Element};

    // The elements of it, in order.
    ghost elements: { Self → List Element };

    /// How many there are.
    fn count(&self) -> usize
        ensures { result ≡ length (elements self.now) };

    /// The id and the data of the element at the index, which is below the count.
    fn at(&self, index: usize) -> (u8, &[u8])
        requires { index < length (elements self.now) }
        ensures { slice_get (elements self.now) index ≡ Some (result.0, result.1.now) };
}

impl ElementList for &[(u8, &[u8])] {
    ghost elements = { λ pairs. elements_of pairs.now };

    fn count(&self) -> usize {
        (*self).len()
    }

    fn at(&self, index: usize) -> (u8, &[u8]) {
        self[index]
    }
}
