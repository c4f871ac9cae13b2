ghost use Rattle.std.specs.Prelude.{◌≡◌, ℕ, List, take, Option, None, IfErr, OnOk, OnErr};
ghost use Rattle.std.specs.Io.KnownBytes.{Appends};
ghost use Rattle.cell_device.specs.Calls.{HasCause};

use outcomes::ProgramFault;

/// What takes texts, and counts how often that fails.
pub trait CountedWrite {
    // The bytes that it holds, where they are known.
    ghost contents: { Self → Option (List ℕ) } = { λ _. None };

    // How often it has failed.
    ghost failures: { Self → ℕ };

    /// Writes all of a text. Where that fails, a prefix of it was written.
    fn write_whole(&mut self, text: &[u8]) -> Result<(), ProgramFault>
        ensures ok { OnOk result (Appends (contents self.old) (contents self.new) text.now) }
        ensures err { OnErr result
            ((n : ℕ) × Appends (contents self.old) (contents self.new) (take n text.now)) }
        ensures fault { IfErr result (λ fault. fault ≡ ProgramFault.Output) }
        ensures cause { HasCause ProgramFault.Output (failures self.old) (failures self.new)
            result };
}
