ghost use Rattle.std.specs.Prelude.{◌≡◌};
ghost use Rattle.reply_text.specs.declared.status.TheConstants.{OPTIMAL, ACCEPTED, INFEASIBLE};
ghost use Rattle.reply_text.specs.declared.status.TheConstants.{WRONG_WORDS, REFUSED, FEASIBLE};
ghost use Rattle.reply_text.specs.declared.status.TheConstants.{READ_FAULT, WRITE_FAULT};
ghost use Rattle.reply_text.specs.declared.status.TheConstants.{OUT_OF_MEMORY, REJECTED};

/// The statuses are these numbers.
pub fn status_numbers()
    ensures optimal { OPTIMAL ≡ 0 }
    ensures accepted { ACCEPTED ≡ 0 }
    ensures infeasible { INFEASIBLE ≡ 1 }
    ensures wrong_words { WRONG_WORDS ≡ 2 }
    ensures refused { REFUSED ≡ 3 }
    ensures feasible { FEASIBLE ≡ 4 }
    ensures read_fault { READ_FAULT ≡ 5 }
    ensures write_fault { WRITE_FAULT ≡ 6 }
    ensures out_of_memory { OUT_OF_MEMORY ≡ 7 }
    ensures rejected { REJECTED ≡ 8 }
{}
