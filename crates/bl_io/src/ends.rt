//! What is outside: a source of bytes and a sink for them.
ghost use Rattle.std.specs.Prelude.{◌≡◌, ◌<◌, ◌≤◌, ℕ, List, length, IfOk};
ghost use Rattle.std.specs.declared.option.Option.{Option};
ghost use Rattle.std.specs.Io.{ReadsAtMost};
ghost use Rattle.std.specs.Io.KnownBytes.{WriteAppends, Keeps};
ghost use Rattle.bl_io.specs.Streams.{Gives};
ghost use Rattle.bl_io.specs.Causes.{HasCause};

/// A read, a write or a finish that the outside refused.
#[derive(Clone, Copy, Debug, PartialEq, Eq)]
pub struct Failed;

/// Where bytes come from.
pub trait Source {
    /// The bytes still to come, where the source tells them.
    ghost left: { Self → Option (List ℕ) };

    /// How often it has failed, up to the last value of the count.
    ghost faults: { Self → ℕ };

    /// Puts the next bytes in front of the buffer, and answers how many. 0 is the end.
    fn read(&mut self, buf: &mut [u8]) -> Result<usize, Failed>
        requires { 0 < length buf.old }
        ensures count { ReadsAtMost result buf.new }
        ensures bytes { Gives (left self.old) (left self.new) result buf.new }
        ensures cause { HasCause (faults self.old) (faults self.new) result };
}

/// Where bytes go.
pub trait Sink {
    /// The bytes taken so far, where the sink tells them.
    ghost kept: { Self → Option (List ℕ) };

    /// How often it has failed, up to the last value of the count.
    ghost faults: { Self → ℕ };

    /// Takes bytes from the front of the piece, and answers how many.
    fn write(&mut self, piece: &[u8]) -> Result<usize, Failed>
        requires { 0 < length piece.now }
        ensures count { IfOk result (λ n. (1 ≤ n) × (n ≤ length piece.now)) }
        ensures bytes { WriteAppends (kept self.old) (kept self.new) result piece.now }
        ensures cause { HasCause (faults self.old) (faults self.new) result };

    /// Hands on what it holds back.
    fn finish(&mut self) -> Result<(), Failed>
        ensures bytes { Keeps (kept self.old) (kept self.new) }
        ensures cause { HasCause (faults self.old) (faults self.new) result };
}
