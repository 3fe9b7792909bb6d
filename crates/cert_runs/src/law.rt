// What following the lines of a run says of a certificate.

ghost use Rattle.cert_runs.specs.Failing.{GoodRunsTell, FaultyRunsTell};

/// How far the lines of a run go tells which line of a certificate fails first: where they break off that line, else what the lines behind them say.
pub fn runs_tell()
    ensures good { GoodRunsTell }
    ensures faulty { FaultyRunsTell }
{}
