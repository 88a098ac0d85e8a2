//! The text of a certificate.
ghost use Rattle.std.specs.Prelude.{◌≡◌, ◌++◌, map, flat_map, IfOk, OnOk};
ghost use Rattle.cert_line.specs.Lines.{name_line, with_feed};
ghost use Rattle.cert_line.specs.declared.rows.Line.TheVariants.{DexDigest, View, Body};
ghost use Rattle.certificate.specs.Texts.{lock_lines, certificate_text};

use crate::parts::{Certificate, LockPart};
use cert_line::{
    BodyRow, ViewRow, put_body, put_dex_digest, put_end, put_list_digest, put_lock, put_version,
    put_view,
};
use ns_base::OutOfMemory;
use std::alloc::{AllocError, Global};

fn put_views(out: &mut Vec<u8>, rows: &[ViewRow]) -> Result<(), AllocError>
    ensures { OnOk result (out.new.items ≡ out.old.items ++ flat_map with_feed (map View rows.now)) }
{
    for row in rows {
        put_view(out, row)?;
    }
    Ok(())
}

fn put_bodies(out: &mut Vec<u8>, rows: &[BodyRow]) -> Result<(), AllocError>
    ensures { OnOk result (out.new.items ≡ out.old.items ++ flat_map with_feed (map Body rows.now)) }
{
    for row in rows {
        put_body(out, row)?;
    }
    Ok(())
}

fn put_dexes(out: &mut Vec<u8>, digests: &[[u8; 20]]) -> Result<(), AllocError>
    ensures { OnOk result (out.new.items ≡ out.old.items ++ flat_map with_feed (map DexDigest digests.now)) }
{
    for digest in digests {
        put_dex_digest(out, digest)?;
    }
    Ok(())
}

fn put_part(out: &mut Vec<u8>, number: u64, part: &LockPart) -> Result<(), AllocError>
    ensures { OnOk result (out.new.items ≡ out.old.items ++ (with_feed (name_line number part.now.name) ++ (flat_map with_feed (map View part.now.views) ++ flat_map with_feed (map Body part.now.bodies)))) }
{
    put_lock(out, number, &part.name)?;
    put_views(out, &part.views)?;
    put_bodies(out, &part.bodies)
}

fn put_parts(out: &mut Vec<u8>, parts: &[LockPart]) -> Result<(), AllocError>
    ensures { OnOk result (out.new.items ≡ out.old.items ++ flat_map with_feed (lock_lines 0 parts.now)) }
{
    for (i, part) in parts.iter().enumerate() {
        put_part(out, i as u64, part)?;
    }
    Ok(())
}

#[tactic(auto, using(crate::proofs::Texts::whole_text), unfolding(crate::specs::Texts::certificate_text))]
fn text_of(alloc: Global, cert: &Certificate) -> Result<Vec<u8>, AllocError>
    ensures { IfOk result (λ text. text.items ≡ certificate_text cert.now) }
{
    let mut out = Vec::new(alloc);
    put_version(&mut out)?;
    put_list_digest(&mut out, &cert.list)?;
    put_dexes(&mut out, &cert.dex)?;
    put_parts(&mut out, &cert.locks)?;
    put_end(&mut out)?;
    Ok(out)
}

/// The text of a certificate. Of one that breaks the rules it is a text that is not read.
pub fn write_certificate(alloc: Global, cert: &Certificate) -> Result<Vec<u8>, OutOfMemory>
    ensures { IfOk result (λ text. text.items ≡ certificate_text cert.now) }
{
    match text_of(alloc, cert) {
        Ok(text) => Ok(text),
        Err(AllocError) => Err(OutOfMemory),
    }
}
