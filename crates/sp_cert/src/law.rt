// The law of written certificates.
ghost use Rattle.sp_cert.specs.Written.{WrittenLaw};

/// What holds of the certificate of all rows, for every e, degree and limit of a context, wherever each e-regular
/// partition has a row within the limit. It takes and answers nothing: its contract is the theorem.
///
/// The text that `write` appends has lines that the grammar of certificates allows one after the other, and exactly
/// the last of them ends a certificate: the one of version 2 that has for each e-regular partition its row, and the
/// shares that aren't 0. All columns of that certificate are accepted under the limit, so `check` answers its entries
/// or that memory ran out.
pub fn written_law()
    ensures { WrittenLaw }
{}
