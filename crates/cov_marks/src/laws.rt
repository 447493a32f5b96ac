ghost use Rattle.cov_marks.specs.Marks.{MarksLaw};

/// Two lists of the marks of the same uses at one gap width are equal. A call does nothing.
pub fn marks_law()
    ensures { MarksLaw }
{}
