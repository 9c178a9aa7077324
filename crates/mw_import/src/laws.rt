// What holds of flattened modules.
ghost use Rattle.mw_import.specs.Laws.{FlattenedWithin};

/// The law that the statements of a module that is reached are among those of the module that reaches it, and so are
/// its modules.
pub fn flattened_within()
    ensures { FlattenedWithin }
{}
