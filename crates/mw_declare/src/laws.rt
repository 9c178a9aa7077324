// What holds of the signatures of statements.
ghost use Rattle.mw_declare.specs.Laws.{PartsAreThere, DeclaredApart};

/// The law that the signature of statements is part of that of others, among which their forms are: its sorts and
/// operators are there, and sorts that it orders are of one kind there.
pub fn parts_are_there()
    ensures { PartsAreThere }
{}

/// The law that no two operators of statements have one name, arguments of the same kinds and values of one kind.
pub fn declared_apart()
    ensures { DeclaredApart }
{}
