//! Rows of tags.
ghost use Rattle.std.specs.Prelude.{◌≡◌, length};
ghost use Rattle.act_model.specs.Changes.{tag_in};

use app_model::Tag;

/// The tags of a method's registers before an instruction, and then that of its result cell.
pub trait Row {
    ghost use Rattle.std.specs.Prelude.{List};
    ghost use Rattle.app_model.specs.declared.tag.Tag.{Tag};

    ghost tags: { Self → List Tag };

    /// The tag of a register; Bot past the end.
    fn tag(&self, register: usize) -> Tag
        ensures { result ≡ tag_in (tags self.now) register };

    /// How many cells there are, the result cell too.
    fn cells(&self) -> usize
        ensures { result ≡ length (tags self.now) };
}

impl Row for &[Tag] {
    ghost tags = { λ row. row.now };

    fn tag(&self, register: usize) -> Tag {
        match self.get(register) {
            Some(tag) => *tag,
            None => Tag::Bot,
        }
    }

    fn cells(&self) -> usize {
        self.len()
    }
}
