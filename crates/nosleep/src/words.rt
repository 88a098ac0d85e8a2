//! The words of the command line.
ghost use Rattle.std.specs.Prelude.{◌≡◌, map, string_bytes, Option, Some, option_map};
ghost use Rattle.nosleep.specs.Words.{check_of, kinds_by, named_form, receiver_of, request_of, rest_of, verify_of};
ghost use Rattle.nosleep.specs.Asked.{form_by, request_by, rest_by};

/// The options of the command line.
#[derive(Clone, Copy)]
pub struct Options {
    /// Events are written as lines of JSON.
    pub json: bool,
    /// Events are counted.
    pub count: bool,
}

/// Options, and the words behind them.
#[derive(Clone, Copy)]
pub struct Behind<'a> {
    pub options: Options,
    pub names: &'a [String],
}

/// What the words ask for, and with which options.
#[derive(Clone, Copy)]
pub struct Order<'a> {
    pub options: Options,
    pub form: Asked<'a>,
}

impl Options {
    pub const NONE: Options = Options {
        json: false,
        count: false,
    };
}

/// What the words ask for, its names as they stand there.
#[derive(Clone, Copy)]
pub enum Asked<'a> {
    /// A DEX file, and the class of its one receiver, as a descriptor.
    Receiver {
        dex: &'a str,
        class: &'a str,
    },
    /// A component list, and at least one DEX file.
    Verify {
        list: &'a str,
        files: &'a [String],
    },
    /// A certificate, and the same.
    Check {
        cert: &'a str,
        list: &'a str,
        files: &'a [String],
    },
}

// A component list, and at least one DEX file.
fn verify_of<'a>(list: &'a str, files: &'a [String]) -> Option<Asked<'a>>
    ensures { option_map form_by result ≡ verify_of list.now (map string_bytes files.now) }
{
    if files.is_empty() {
        None
    } else {
        Some(Asked::Verify { list, files })
    }
}

// A certificate, a component list, and at least one DEX file.
fn check_of<'a>(cert: &'a str, words: &'a [String]) -> Option<Asked<'a>>
    ensures { option_map form_by result ≡ check_of cert.now (map string_bytes words.now) }
{
    let (list, files) = words.split_first()?;
    if files.is_empty() {
        None
    } else {
        Some(Asked::Check {
            cert,
            list: list.as_str(),
            files,
        })
    }
}

// A DEX file, and one word more, the class.
fn receiver_of<'a>(dex: &'a str, words: &'a [String]) -> Option<Asked<'a>>
    ensures { option_map form_by result ≡ receiver_of dex.now (map string_bytes words.now) }
{
    match words {
        [class] => Some(Asked::Receiver {
            dex,
            class: class.as_str(),
        }),
        _ => None,
    }
}

// The form that this word begins, with the names behind its options.
fn named_form<'a>(form: &str, names: &'a [String]) -> Option<Asked<'a>>
    ensures { option_map form_by result ≡ named_form form.now (map string_bytes names.now) }
{
    let (first, rest) = names.split_first()?;
    if form == "verify" {
        verify_of(first.as_str(), rest)
    } else if form == "check" {
        check_of(first.as_str(), rest)
    } else if form == "receiver" {
        receiver_of(first.as_str(), rest)
    } else {
        None
    }
}

// The words behind options; these came before.
fn rest_of(options: Options, words: &[String]) -> Option<Behind<'_>>
    ensures { option_map rest_by result ≡ rest_of options.json options.count (map string_bytes words.now) }
{
    let Some((word, rest)) = words.split_first() else {
        return Some(Behind {
            options,
            names: words,
        });
    };
    if !word.as_str().starts_with("--") {
        Some(Behind {
            options,
            names: words,
        })
    } else if word.as_str() == "--json" && !options.json {
        rest_of(
            Options {
                json: true,
                count: options.count,
            },
            rest,
        )
    } else if word.as_str() == "--count" && !options.count {
        rest_of(
            Options {
                json: options.json,
                count: true,
            },
            rest,
        )
    } else {
        None
    }
}

/// What the words ask for, where they have a form. The program's own name is not among them.
pub fn ordered_by(words: &[String]) -> Option<Order<'_>>
    ensures { option_map request_by result ≡ request_of (map string_bytes words.now) }
{
    let (form, words) = words.split_first()?;
    let behind = rest_of(Options::NONE, words)?;
    let asked = named_form(form.as_str(), behind.names)?;
    Some(Order {
        options: behind.options,
        form: asked,
    })
}

/// The kinds of the watchers that options choose.
pub fn kinds_by(options: Options) -> &'static [u8]
    ensures { result.now ≡ kinds_by options.json options.count }
{
    match (options.json, options.count) {
        (false, false) => b"".as_slice(),
        (true, false) => b"\x01".as_slice(),
        (false, true) => b"\x02".as_slice(),
        (true, true) => b"\x01\x02".as_slice(),
    }
}
