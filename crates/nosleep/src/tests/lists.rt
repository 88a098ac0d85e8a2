//! What `verify` answers by the text of its component list, over the sample.
use super::rows::Told;
use ns_base::Exit;

/// What a list shows, its text, and the answer; none where the sample's certificate is written.
pub type List = (&'static str, &'static str, Option<Told>);

/// The list of the sample's receiver.
pub const LIST: &str = "[[component]]\nkind = \"receiver\"\nclass = \"Lapp/R;\"\n";

// No callback of the list leads to the receiver's method, which makes a lock.
const UNREACHED: Told = (Exit::Scope, "refused N8 Lapp/R;->onReceive 0 11\n");

pub static LISTS: [List; 8] = [
    ("a receiver", LIST, None),
    (
        "its exit by name",
        "[[component]]\nkind = \"receiver\"\nclass = \"Lapp/R;\"\nexits = [\"onReceive\"]\n",
        None,
    ),
    ("no component", "", Some(UNREACHED)),
    (
        "another kind",
        "[[component]]\nkind = \"activity\"\nclass = \"Lapp/R;\"\n",
        Some(UNREACHED),
    ),
    (
        "a class of no file",
        "[[component]]\nkind = \"receiver\"\nclass = \"Lapp/Q;\"\n",
        Some((Exit::Bad, "bad list NoClass 0\n")),
    ),
    (
        "a runnable without run",
        "[[component]]\nkind = \"runnable\"\nclass = \"Lapp/R;\"\n",
        Some((Exit::Bad, "bad list NoCallback 0\n")),
    ),
    (
        "a class with a control character",
        "[[component]]\nkind = \"receiver\"\nclass = \"L\\u0001;\"\n",
        Some((Exit::Bad, "bad list NoClass 0\n")),
    ),
    (
        "the profile by its number",
        "profile = 1\n[[component]]\nkind = \"receiver\"\nclass = \"Lapp/R;\"\n",
        None,
    ),
];

pub static BAD_LISTS: [List; 11] = [
    (
        "an unknown key",
        "x = 1\n",
        Some((Exit::Bad, "bad list Key 0 x\n")),
    ),
    (
        "a key that is shown",
        "\"a b\" = 1\n",
        Some((Exit::Bad, "bad list Key 0 a\\x20b\n")),
    ),
    (
        "another profile",
        "profile = 2\n",
        Some((Exit::Bad, "bad list Key 0 profile\n")),
    ),
    ("no document", "x =\n", Some((Exit::Bad, "bad list Text\n"))),
    (
        "a key twice",
        "profile = 1\nprofile = 1\n",
        Some((Exit::Bad, "bad list Text\n")),
    ),
    (
        "a byte order mark inside",
        "x = \u{feff}1\n",
        Some((Exit::Bad, "bad list Text\n")),
    ),
    (
        "an unknown kind",
        "[[component]]\nkind = \"provider\"\nclass = \"Lapp/R;\"\n",
        Some((Exit::Bad, "bad list Kind 0\n")),
    ),
    (
        "no exit",
        "[[component]]\nkind = \"receiver\"\nclass = \"Lapp/R;\"\nexits = []\n",
        Some((Exit::Bad, "bad list EmptyExits 0\n")),
    ),
    (
        "an exit of another kind",
        "[[component]]\nkind = \"receiver\"\nclass = \"Lapp/R;\"\nexits = [\"onPause\"]\n",
        Some((Exit::Bad, "bad list ExitName 0 0\n")),
    ),
    (
        "a class twice",
        "[[component]]\nkind = \"receiver\"\nclass = \"Lapp/R;\"\n[[component]]\nkind = \"activity\"\nclass = \"Lapp/R;\"\n",
        Some((Exit::Bad, "bad list Twice 1\n")),
    ),
    (
        "no kind",
        "[[component]]\nclass = \"Lapp/R;\"\n",
        Some((Exit::Bad, "bad list Key 1 kind\n")),
    ),
];
