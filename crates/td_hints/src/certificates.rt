//! Faults of a certificate's text.

ghost use Rattle.std.specs.Prelude.{◌≡◌};
ghost use Rattle.td_hints.specs.Certificates.{sentence, advice};

use td_certificate::CertFaultKind;

/// What is wrong.
pub fn sentence(kind: CertFaultKind) -> &'static [u8]
    ensures { result.now ≡ sentence kind }
{
    match kind {
        CertFaultKind::OutOfMemory => b"memory ran out",
        CertFaultKind::Syntax => b"a byte that the format doesn't allow here",
        CertFaultKind::UnexpectedEnd => b"the text ends before its certificate does",
        CertFaultKind::Trailing => b"more text after a whole certificate",
        CertFaultKind::NumberTooLarge => b"a number that passes its limit",
        CertFaultKind::Version => b"a version of certificates that this program doesn't know",
        CertFaultKind::TooLong => b"more than 268,435,456 bytes",
    }
}

/// What to do about it.
pub fn advice(kind: CertFaultKind) -> &'static [u8]
    ensures { result.now ≡ advice kind }
{
    match kind {
        CertFaultKind::OutOfMemory => b"give it more memory",
        CertFaultKind::Syntax => {
            b"make or fetch the certificate again; docs/CERTIFICATE.md has the format"
        }
        CertFaultKind::UnexpectedEnd => {
            b"make or fetch the certificate again: it is empty or cut off; a search that ends as between has none"
        }
        CertFaultKind::Trailing => b"a file has one certificate; join makes one of several",
        CertFaultKind::NumberTooLarge => b"make or fetch the certificate again",
        CertFaultKind::Version => {
            b"tdelay --version prints which it reads: take the program that made it, or a newer one"
        }
        CertFaultKind::TooLong => {
            b"cut the question into parts and check the certificates of these: see docs/MANY-MACHINES.md"
        }
    }
}
