// What the text of certificates is for.

ghost use Rattle.cert_text.specs.Readable.{CertificatesAreRead, LoopsFail};

/// The text of the certificate of each fault with a verdict or a race is read as a valid certificate, of that fault and of that claim; that of a fault whose
/// faulty machine loops fails at its second line.
pub fn certificates_are_read()
    ensures read { CertificatesAreRead }
    ensures loops { LoopsFail }
{
    fault_list::names_read();
    cert_laws::what_is_certified();
}
