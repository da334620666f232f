ghost use Rattle.std.specs.Prelude.{ℕ, List, Option, None, IfOk, ◌<◌, length};
ghost use Rattle.std.specs.Io.{ReadsAtMost, WritesAtMost};
ghost use Rattle.std.specs.Io.KnownBytes.{ReadConsumes, WriteAppends};
ghost use Rattle.dm_outside.specs.Causes.{HasCause};
ghost use Rattle.dm_outside.specs.Offers.{Offer, Adds, counts_of, offer_of};

/// The outside failed.
#[derive(Clone, Copy, Debug, PartialEq, Eq)]
pub struct Failed;

/// What bytes are read from, such as a file, a pipe or a vector.
pub trait Source {
    /// The bytes still to come, where they are told.
    ghost left: { Self → Option (List ℕ) };
    /// How often it has failed.
    ghost faults: { Self → ℕ };
    /// How many bytes each read gave so far that did not fail, where it is told.
    ghost reads: { Self → Option (List ℕ) } = { λ _. None };

    /// Moves a number of bytes, which it gives, to the front of `buf`. For a buffer that isn't empty the number is 0
    /// only at the end.
    fn read(&mut self, buf: &mut [u8]) -> Result<usize, Failed>
        ensures bound { ReadsAtMost result buf.new }
        ensures bytes { ReadConsumes (left self.old) (left self.new) result buf.new }
        ensures told { Adds (reads self.old) (reads self.new) (counts_of result) }
        ensures cause { HasCause (faults self.old) (faults self.new) result };
}

/// What bytes are written to.
pub trait Sink {
    /// The bytes taken, where they are told.
    ghost written: { Self → Option (List ℕ) };
    /// How often it has failed.
    ghost faults: { Self → ℕ };
    /// What each write offered so far, and how many bytes of it were taken, where it is told.
    ghost offers: { Self → Option (List Offer) } = { λ _. None };

    /// Takes a front of `piece`, of the length that it gives. To take nothing of a piece that isn't empty is a failure, and
    /// after a failure nothing more is taken.
    fn write(&mut self, piece: &[u8]) -> Result<usize, Failed>
        ensures bound { WritesAtMost result piece.now }
        ensures bytes { WriteAppends (written self.old) (written self.new) result piece.now }
        ensures told { Adds (offers self.old) (offers self.new) (offer_of piece.now result) }
        ensures some { IfOk result (λ n. 0 < length piece.now → 0 < n) }
        ensures cause { HasCause (faults self.old) (faults self.new) result };
}
