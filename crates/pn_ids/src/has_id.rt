ghost use Rattle.std.specs.Prelude.{◌≡◌, ℕ, List};

use pn_text::Text;

/// Something that has an id.
pub trait HasId {
    ghost id_of: { Self → List ℕ };

    fn id(&self) -> &str
        ensures { result.now ≡ id_of self.now };
}

impl HasId for Text {
    ghost id_of = { λ t. t };

    fn id(&self) -> &str {
        self.as_str()
    }
}
