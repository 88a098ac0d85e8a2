//! Certificates over the sample, and what `check` answers to them.
use super::rows::Told;
use ns_base::Exit;
use sha1::Sha1;
use std::alloc::{AllocError, Global};

/// The rows of the sample's certificate.
pub const ROWS: &str = "lock 0 Lapp/R;->wl
view 0 0 03
body 0 A 02 01 0101010101010101010202040402
body 0 C0 02 02 0202020202020202020202040402
end
";

/// What rows show, the rows, and the answer of `check` over the sample.
pub type Cert = (&'static str, &'static str, Told);

const VALID: Told = (Exit::Accept, "valid\n");

pub static CERTS: [Cert; 8] = [
    ("those of verify", ROWS, VALID),
    (
        "a closed set that is not the least",
        "lock 0 Lapp/R;->wl
view 0 0 03
body 0 A 02 03 0101010101010101010202040402
body 0 C0 02 02 0202020202020202020202040402
end
",
        VALID,
    ),
    (
        "a return that is missing",
        "lock 0 Lapp/R;->wl
view 0 0 03
body 0 A 00 01 0101010101010101010202040402
body 0 C0 02 02 0202020202020202020202040402
end
",
        (Exit::Broken, "broken I1 0 0 0 27\n"),
    ),
    (
        "a status from which no callback begins",
        "lock 0 Lapp/R;->wl
view 0 0 07
body 0 A 02 01 0101010101010101010202040402
body 0 C0 02 02 0202020202020202020202040402
end
",
        (Exit::Broken, "broken V3 0 0 0 0\n"),
    ),
    (
        "another name of the lock field",
        "lock 0 Lapp/R;->wm
end
",
        (Exit::Broken, "broken shape 0\n"),
    ),
    ("no lock field", "end\n", (Exit::Broken, "broken shape 0\n")),
    (
        "no end",
        "lock 0 Lapp/R;->wl
view 0 0 03
body 0 A 02 01 0101010101010101010202040402
body 0 C0 02 02 0202020202020202020202040402
",
        (Exit::Bad, "bad certificate line 8\n"),
    ),
    (
        "a view of no status",
        "lock 0 Lapp/R;->wl
view 0 0 00
end
",
        (Exit::Bad, "bad certificate line 5\n"),
    ),
];

/// Rows of a receiver that leaks where an outside call throws.
pub const LEAKING: &str = "lock 0 Lapp/R;->wl
view 0 0 87
body 0 A 06 05 0101010101010101010202040404020404
body 0 C0 06 06 0202020202020202020202040404020404
body 0 C1 80 84 0404040404040404048080808080808080
body 0 L 80 80 8080808080808080808080808080808080
end
";

fn push_digest(text: &mut Vec<u8>, words: &[u8], bytes: &[u8]) -> Result<(), AllocError> {
    text.extend_from_slice(words)?;
    let mut digits = [0u8; 40];
    let _ = hex::encode_to_slice(Sha1::digest(bytes), &mut digits);
    text.extend_from_slice(&digits)?;
    text.push(b'\n')?;
    Ok(())
}

/// A certificate of these rows, for a list and a DEX file.
pub fn certificate(
    alloc: Global,
    list: &[u8],
    file: &[u8],
    rows: &str,
) -> Result<Vec<u8>, AllocError> {
    let mut text = b"nosleep 1\n".to_vec(alloc)?;
    push_digest(&mut text, b"list ", list)?;
    push_digest(&mut text, b"dex ", file)?;
    text.extend_from_slice(rows.as_bytes())?;
    Ok(text)
}
