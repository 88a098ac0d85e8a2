//! What holds of every certificate, whoever checks it: the laws by which what was written for an application is accepted by
//! whoever reads the same files.
//!
//! - `Places` (of `proofs/`): the flow rules of subjects that are alike have the same instances at the same places.
//! - `Alike`: so a certificate has one verdict over both.
//! - `Rows`: the rows of a least solution have its facts, and no other.
//! - `Fits`: they fit the subject; `Names`: their name is part of the text.
//! - `Digests`: SHA-1 digests have 20 bytes.
//! - `Written`: so the certificate of least solutions without violations is accepted, and has a text.
//! - `One`: a certificate has one verdict.
//! - `Accepted`: what is accepted has no other verdict than that it is valid, and the rules derive no violation.
#![tactic(auto)]

ghost use Rattle.std.specs.Prelude.{◌≡◌, ◌<◌, ◌+◌, ◌^◌, ◌++◌, ◌∷◌, ℕ, List, [], length};
ghost use Rattle.std.specs.List.{All};
ghost use Rattle.app_model.specs.Subject.{SubjectParts, IsSubject, slot_count};
ghost use Rattle.cert_line.specs.Lines.{IsDigest};
ghost use Rattle.certificate.specs.Parts.{CertParts, LockRows};
ghost use Rattle.certificate.specs.Texts.{IsCert, certificate_text};
ghost use Rattle.cert_check.specs.Verdict.{IsAccepted, IsVerdict};
ghost use Rattle.cert_check.specs.declared.verdict.Checked.{Checked};
ghost use Rattle.cert_check.specs.declared.verdict.Checked.TheVariants.{Valid};
ghost use Rattle.flow_model.specs.Policy.{AreViolations};
ghost use Rattle.one_scope.specs.Alike.{AreAlike};
ghost use Rattle.sha1.specs.Sha1.{sha1};
ghost use Rattle.cert_laws.specs.Solved.{AreSolved, IsSolved};

/// Subjects in scope of one application and list have the same verdict on each certificate, and accept the same ones.
pub fn alike_verdicts()
    ensures verdict { (x y : SubjectParts) → AreAlike x y → (list : List ℕ) (dex : List (List ℕ)) (cert : CertParts) (answer : Checked) → IsVerdict x list dex cert answer → IsVerdict y list dex cert answer }
    ensures accepted { (x y : SubjectParts) → AreAlike x y → (list : List ℕ) (dex : List (List ℕ)) (cert : CertParts) → IsAccepted x list dex cert → IsAccepted y list dex cert }
{}

/// The certificate of the least solutions of a subject without violations is accepted with the digests that it has, and has
/// a text. That text is to be shorter than 2^32 bytes, since the checker takes no longer name of a lock field.
pub fn written_certificates()
    ensures accepted { (x : SubjectParts) (cert : CertParts) → IsSubject x → AreViolations x [] → AreSolved x (slot_count x) cert.locks → length (certificate_text cert) < 2 ^ 32 → IsAccepted x cert.list cert.dex cert }
    ensures text { (x : SubjectParts) (cert : CertParts) → IsSubject x → AreSolved x (slot_count x) cert.locks → IsDigest cert.list → All IsDigest cert.dex → 0 < length cert.dex → IsCert cert }
    // SHA-1 digests are such.
    ensures digest { (m : List ℕ) → IsDigest (sha1 m) }
    // Parts are put one by one.
    ensures none { (x : SubjectParts) → AreSolved x 0 [] }
    ensures next { (x : SubjectParts) (n : ℕ) (parts : List LockRows) (part : LockRows) → AreSolved x n parts → IsSolved x n part → AreSolved x (n + 1) (parts ++ part ∷ []) }
{}

/// A certificate has no two verdicts over one subject.
pub fn one_verdict()
    ensures { (x : SubjectParts) (list : List ℕ) (dex : List (List ℕ)) (cert : CertParts) (a b : Checked) → IsVerdict x list dex cert a → IsVerdict x list dex cert b → a ≡ b }
{}

/// What is accepted is valid, and then the rules derive no violation.
pub fn accepted_certificates()
    ensures valid { (x : SubjectParts) (list : List ℕ) (dex : List (List ℕ)) (cert : CertParts) → IsAccepted x list dex cert → IsVerdict x list dex cert Valid }
    ensures sound { (x : SubjectParts) (list : List ℕ) (dex : List (List ℕ)) (cert : CertParts) → IsAccepted x list dex cert → AreViolations x [] }
{}
