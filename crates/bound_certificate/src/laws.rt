ghost use Rattle.bound_certificate.specs.Laws.{LacksNothing, OneCertificate, OnlyWholeNumbers};

/// What a text says is one certificate, and what says one lacks no part.
pub fn certificate_laws()
    ensures one { OneCertificate }
    ensures whole { LacksNothing }
    ensures numbers { OnlyWholeNumbers }
{}
