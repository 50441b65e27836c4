//! What texts are told to: one that counts their bytes, or one that writes them.

ghost use Rattle.std.specs.Prelude.{◌≡◌, ℕ, List, [], ◌∷◌, length, decimal};
ghost use Rattle.files.specs.Sink.{SinkLaws};

// Takes texts, one after another.
pub(crate) trait Sink {
    // Whether there is room for so many bytes.
    ghost HasRoom: { Self → ℕ → Type 0 };

    // Whether a text, taken, turns one into another.
    ghost Took: { Self → List ℕ → Self → Type 0 };

    // What each kind must prove.
    ghost laws: { SinkLaws HasRoom Took };

    // Takes a byte.
    fn byte(&mut self, byte: u8)
        requires { HasRoom self.old 1 }
        ensures { Took self.old (byte ∷ []) self.new };

    // Takes bytes.
    fn bytes(&mut self, bytes: &[u8])
        requires { HasRoom self.old (length bytes.now) }
        ensures { Took self.old bytes.now self.new };

    // Takes a number, in digits.
    fn number(&mut self, n: u16)
        requires { HasRoom self.old (length (decimal n)) }
        ensures { Took self.old (decimal n) self.new };
}
