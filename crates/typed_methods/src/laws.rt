//! Methods keep the rules on types where calls come out of their statements.

ghost use Rattle.typed_methods.specs.TypedMethods.{MethodsHaveTypes, MethodsKeepTypes};

/// The flat code of each method of an accepted program keeps the rules on types, with temporaries that are numbered one after another
/// behind the names, each of one type.
pub fn methods_keep_types()
    ensures { MethodsKeepTypes }
{}

/// Where each part of that code can be reached and the callees in it are there, it is as a graph that fits its program asks it of a
/// flat method.
pub fn methods_have_types()
    ensures { MethodsHaveTypes }
{}
