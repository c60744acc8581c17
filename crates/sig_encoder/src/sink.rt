ghost use Rattle.std.specs.Prelude.{◌≡◌, Result};
ghost use Rattle.sig_grammar.specs.Parts.{byte, number, signed, index};
ghost use Rattle.sig_encoder.specs.Run.{after};
ghost use Rattle.sig_encoder.specs.Items.{Item, part, broken};

use table_schema::Token;

/// Takes the parts of a signature, one after another, until it stops.
///
/// Each call returns `None` if the sink stops. The sink itself keeps the reason.
pub trait PartSink {
    /// The sink after a part, or its state when it stopped there.
    ghost step: { Item → Self → Result Self Self };

    /// A byte. If the grammar does not know the calling convention of a method, its first byte may exceed
    /// one byte.
    fn byte(&mut self, code: u16) -> Option<()>
        ensures { after result self.new ≡ step (part (byte code)) self.old };

    /// A packed number (II.23.2).
    fn number(&mut self, count: usize) -> Option<()>
        ensures { after result self.new ≡ step (part (number count)) self.old };

    /// A packed signed number (II.23.2.13).
    fn signed(&mut self, value: i32) -> Option<()>
        ensures { after result self.new ≡ step (part (signed value)) self.old };

    /// The index of a row of TypeDef, TypeRef or TypeSpec (II.23.2.8).
    fn index(&mut self, token: Token) -> Option<()>
        ensures { after result self.new ≡ step (part (index token)) self.old };

    /// The value breaks the grammar here, or nests too deep.
    fn broken(&mut self) -> Option<()>
        ensures { after result self.new ≡ step broken self.old };
}
