// What is so of all that is written and read.
ghost use Rattle.entries.specs.ReadBack.{ReadsBack};

// A ground that was written as well-known text is read back.
pub fn written_is_read_back()
    ensures { ReadsBack }
{}
