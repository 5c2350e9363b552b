// The look-up of a name in a table of spellings.
ghost use Rattle.std.specs.Prelude.{◌≡◌, ℕ, List};
ghost use Rattle.words.specs.Spelled.{same, first};

// What has a spelling of its own.
pub trait Spelled {
    ghost written: { Self → List ℕ };

    // The name is the spelling.
    fn spells(&self, name: &[u8]) -> bool
        ensures { result ≡ same name.now (written self.now) };
}

// The first of the table whose spelling the name is.
pub fn first<S: Spelled + Copy>(table: &[S], name: &[u8]) -> Option<S>
    ensures { result ≡ first S.written table.now name.now }
{
    table.iter().find(|item| item.spells(name)).copied()
}
