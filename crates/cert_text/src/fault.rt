//! Why a text is no certificate.

/// Why a text wasn't read as a certificate.
#[derive(Clone, Copy)]
pub enum CertFault {
    /// The text is no certificate. The line, counted from 1, is the first such that no certificate
    /// begins with the lines up to and including it, or the number of lines plus one where all of
    /// them are the front of a certificate.
    BadLine { line: u64 },
    /// No memory was left.
    Memory,
}
