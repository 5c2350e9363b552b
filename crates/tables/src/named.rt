// What is looked up by its name.
ghost use Rattle.std.specs.Prelude.{◌≡◌, ℕ, List};

// A trait beside `Spelled` of the words: what is spelled is only asked whether it spells a name, these rows lend their name.
pub trait Named {
    ghost name: { Self → List ℕ };

    fn name(&self) -> &[u8]
        ensures { result.now ≡ name self.now };
}
