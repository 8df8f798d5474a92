//! Names: declared before they are used, and once in a scope.

ghost use Rattle.porch_check.specs.worked.Names.{NamesAreDeclaredUnknown, NamesAreDeclaredKnown, NamesAreDeclaredLater, NamesAreDeclaredEarlier, NamesAreDeclaredNoBody, NamesAreDeclaredTag, NamesAreDeclaredMember, NamesAreDeclaredLeftFirst, NamesAreDeclaredOnceObject, NamesAreDeclaredOnceFunction, NamesAreDeclaredOnceHidden, NamesAreDeclaredOnceParameter, NamesAreDeclaredOnceBody, NamesAreDeclaredOnceTag, NamesAreDeclaredOnceMember, NamesAreDeclaredOnceLibrary, NamesAreDeclaredOnceLibraryHidden, TypedefNamesStayObject, TypedefNamesStaySpaces};

/// Names, tags and members are declared where they are used; a function that is called has a body.
pub fn names_are_declared()
    ensures unknown { NamesAreDeclaredUnknown }
    ensures known { NamesAreDeclaredKnown }
    ensures later { NamesAreDeclaredLater }
    ensures earlier { NamesAreDeclaredEarlier }
    ensures no_body { NamesAreDeclaredNoBody }
    ensures tag { NamesAreDeclaredTag }
    ensures member { NamesAreDeclaredMember }
    ensures left_first { NamesAreDeclaredLeftFirst }
{}

/// A name is declared once in a scope, a function any number of times; an inner name hides an outer one.
pub fn names_are_declared_once()
    ensures object { NamesAreDeclaredOnceObject }
    ensures function { NamesAreDeclaredOnceFunction }
    ensures hidden { NamesAreDeclaredOnceHidden }
    ensures parameter { NamesAreDeclaredOnceParameter }
    ensures body { NamesAreDeclaredOnceBody }
    ensures tag { NamesAreDeclaredOnceTag }
    ensures member { NamesAreDeclaredOnceMember }
    ensures library { NamesAreDeclaredOnceLibrary }
    ensures library_hidden { NamesAreDeclaredOnceLibraryHidden }
{}

/// A typedef name is declared again as a tag or a member alone.
pub fn typedef_names_stay()
    ensures object { TypedefNamesStayObject }
    ensures spaces { TypedefNamesStaySpaces }
{}
