//! Worked scripts: what the definitions make of them.
ghost use Rattle.std.specs.Prelude.{◌≡◌};
ghost use Rattle.run_model.specs.WorkedBoard.{bulletin_board, bulletin_board_text};
ghost use Rattle.run_model.specs.Worked.{text_of, one_over_the_share, one_over_the_share_text};
ghost use Rattle.run_model.specs.Worked.{another_peer_still_misses, another_peer_still_misses_text, too_heavy};
ghost use Rattle.run_model.specs.Worked.{too_heavy_text, signs, signs_text, a_repeat, a_repeat_text, a_gap, a_gap_text};
ghost use Rattle.run_model.specs.Worked.{an_old_acknowledgement, an_old_acknowledgement_text, equal_stamps};
ghost use Rattle.run_model.specs.Worked.{equal_stamps_text, rollback, rollback_text, order_bound, order_bound_text};
ghost use Rattle.run_model.specs.Worked.{staleness, staleness_text, a_lost_return, a_lost_return_text, loans};
ghost use Rattle.run_model.specs.Worked.{loans_text, allowances, allowances_text, admission_of_one_replica};
ghost use Rattle.run_model.specs.Worked.{admission_of_one_replica_text, restarts, restarts_text, two_conits};
ghost use Rattle.run_model.specs.Worked.{two_conits_text};

/// The text of each worked script is what the definitions of histories, replies, messages and errors make
/// of it, without the lines that a record begins with. Each text was written down apart from them, and the
/// checker computes the other side.
pub fn worked_scripts()
    ensures one_over_the_share { text_of one_over_the_share ≡ one_over_the_share_text }
    ensures another_peer_still_misses { text_of another_peer_still_misses ≡ another_peer_still_misses_text }
    ensures too_heavy { text_of too_heavy ≡ too_heavy_text }
    ensures signs { text_of signs ≡ signs_text }
    ensures a_repeat { text_of a_repeat ≡ a_repeat_text }
    ensures a_gap { text_of a_gap ≡ a_gap_text }
    ensures an_old_acknowledgement { text_of an_old_acknowledgement ≡ an_old_acknowledgement_text }
    ensures equal_stamps { text_of equal_stamps ≡ equal_stamps_text }
    ensures rollback { text_of rollback ≡ rollback_text }
    ensures order_bound { text_of order_bound ≡ order_bound_text }
    ensures staleness { text_of staleness ≡ staleness_text }
    ensures a_lost_return { text_of a_lost_return ≡ a_lost_return_text }
    ensures loans { text_of loans ≡ loans_text }
    ensures allowances { text_of allowances ≡ allowances_text }
    ensures admission_of_one_replica { text_of admission_of_one_replica ≡ admission_of_one_replica_text }
    ensures restarts { text_of restarts ≡ restarts_text }
    ensures two_conits { text_of two_conits ≡ two_conits_text }
    ensures bulletin_board { text_of bulletin_board ≡ bulletin_board_text }
{}
