// What the definitions of the language come to, each as the contract of a function.
ghost use Rattle.phrase.specs.Numbers.{CommonIsGreatest};
ghost use Rattle.phrase.specs.Ratios.{PlacesAreExact};
ghost use Rattle.phrase.specs.Writing.{ReadsBack};

// Whatever is written of a command that a line can say is read back as that command.
pub fn written_is_read_back()
    ensures { ReadsBack }
{}

// Lowest terms are lowest: what is divided out is the greatest common divisor.
pub fn common_divisor_is_greatest()
    ensures { CommonIsGreatest }
{}

// A decimal that is written is the fraction itself.
pub fn decimal_places_are_exact()
    ensures { PlacesAreExact }
{}
