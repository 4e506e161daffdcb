// The laws of codes, as statements that the check holds us to.
ghost use Rattle.codes.specs.Agree.{ListsAgree};
ghost use Rattle.codes.specs.Linear.{ZeroIsCodeword, CodewordsAdd};

// A bit is in a check's list exactly when the check is in the bit's list.
pub fn lists_agree()
    ensures { ListsAgree }
{}

// The row of zeros is a codeword, and so is the sum of two codewords.
pub fn codewords_add()
    ensures zero { ZeroIsCodeword }
    ensures sum { CodewordsAdd }
{}
