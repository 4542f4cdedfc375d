// Laws of the reading that is written into a file, each the contract of a call that does nothing.
ghost use Rattle.declared_frame.specs.Laws.{DeclaredStaysCut, DeclaredIsRead, UndeclaredIsOther};

/// A file stays cut under the reading that is written into it.
pub fn declared_stays_cut()
    ensures { DeclaredStaysCut }
{}

/// Where a reading can be declared, a load without it cuts the file, without its tail, into the
/// same parts.
pub fn declared_is_read()
    ensures { DeclaredIsRead }
{}

/// Where it cannot, no load without it cuts the file without its tail into the same parts.
pub fn undeclared_is_other()
    ensures { UndeclaredIsOther }
{}
