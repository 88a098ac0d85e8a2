//! The order of tags.
ghost use Rattle.std.specs.Prelude.{◌≡◌, ◌≢◌};
ghost use Rattle.act_model.specs.Tags.{IsJoin, at_most_any};

use app_model::Tag;

/// The least tag that is above both.
pub fn join(a: Tag, b: Tag) -> Tag
    ensures { IsJoin a b result }
{
    if a == b {
        return a;
    }
    match (a, b) {
        (Tag::Bot, _) => b,
        (_, Tag::Bot) => a,
        _ => join_of_others(a, b),
    }
}

// The same of two different tags that are not Bot.
fn join_of_others(a: Tag, b: Tag) -> Tag
    requires differ { a ≢ b }
    requires left { a ≢ Tag.Bot }
    requires right { b ≢ Tag.Bot }
    ensures { IsJoin a b result }
{
    if !is_at_most_any(a) {
        return Tag::Mixed;
    }
    if !is_at_most_any(b) {
        return Tag::Mixed;
    }
    Tag::Any
}

fn is_at_most_any(tag: Tag) -> bool
    ensures { result ≡ at_most_any tag }
{
    match tag {
        Tag::Bot | Tag::Zero | Tag::Solid | Tag::Held(_) | Tag::Any => true,
        Tag::Field(_) | Tag::New(_) | Tag::Mixed => false,
    }
}
