//! Facts that make the rules easy to believe, as contracts of functions that do nothing.

ghost use Rattle.std.specs.Prelude.{◌≡◌, List, Bool, true};
ghost use Rattle.std.specs.List.{AllZip};
ghost use Rattle.mpi_model.specs.declared.event.OpName.{OpName};
ghost use Rattle.mpi_model.specs.declared.message.Message.{Message};
ghost use Rattle.mpi_model.specs.declared.message.Receive.{Receive};
ghost use Rattle.trace_ops.specs.Ops.{Ops, AreOwn, Grows};
ghost use Rattle.trace_pair.specs.Calls.{AreApart, ArePostedApart};
ghost use Rattle.trace_pair.specs.Certainty.{AreAllSettled, AreCertain, AreLegalIfSettled, AreTheOnlyLegal, PairsAreCertain, StaysAfter, WasAfter};
ghost use Rattle.trace_pair.specs.Pairing.{After, AgreeOn, HaveOneMessage, HaveOneReceive, PairsObey, WhatObeysIsPaired, obeys, paired};
ghost use Rattle.trace_pair.specs.Matching.{IsCoupledBy, IsLeftUnposted, IsLeftUnsent, IsLegal, IsLegalBeside};
ghost use Rattle.trace_pair.specs.Searched.{ArePairs, AreOfOps, AreFoundByBoth};
ghost use Rattle.trace_pair.specs.Table.{table_of};
ghost use Rattle.trace_pair.specs.declared.pair.Pair.{Pair};
ghost use Rattle.trace_pair.specs.Worked.{Over, AnyTag, Hidden, ToldLater, InOrder, CutBack, Exchanged, Interleaved, Freed, TwoCommunicators, CancelledReceive, ToldCancelled, CancelledMessage, BehindABarrier, NotBehindABarrier, OfAnotherBarrier, BehindTheEnd, NotBehindTheEnd, PartsByTag, PartsInAnyOrder, PartBehindPart, OpenPart, GivenBack};

/// The pairs are the only relation that obeys the five rules. Each message has at most one receive, and each receive at
/// most one message.
pub fn pairs_are_the_rules()
    ensures rules { (after : After) (ms : List Message) (qs : List Receive) → PairsObey after ms qs }
    ensures all { (after : After) (ms : List Message) (qs : List Receive) → WhatObeysIsPaired after ms qs }
    ensures only { (after : After) (ms : List Message) (qs : List Receive) (other : Message → Receive → Bool)
        → AgreeOn ms qs other (obeys after ms qs other) → AgreeOn ms qs other (paired after ms qs) }
    ensures one_receive { (after : After) (ms : List Message) (qs : List Receive)
        → ArePostedApart qs → HaveOneReceive after ms qs }
    ensures one_message { (after : After) (ms : List Message) (qs : List Receive)
        → AreApart ms → HaveOneMessage after ms qs }
{}

/// Each pair belongs to every legal matching of every continuation in which no later Cancel names a sure message or
/// receive.
pub fn pairs_are_certain()
    ensures { (after : After) (ms : List Message) (qs : List Receive) → PairsAreCertain after ms qs }
{}

/// If a message comes after a receive, it does so however the ranks go on. If it comes after it only in a continuation,
/// an outcome has completed the receive meanwhile.
pub fn what_comes_after_stays()
    ensures stays { (held more : List Ops) → AreOwn 0 held → AreOwn 0 more → AllZip Grows held more → StaysAfter held more }
    ensures was { (held more : List Ops) → AreOwn 0 held → AreOwn 0 more → AllZip Grows held more → WasAfter held more }
{}

/// A matching is legal if it is legal with some of the doubtful messages and receives that are in no couple taken as
/// void. A legal matching stays legal if all of these are taken as void.
pub fn doubtful_may_stand_outside()
    ensures legal { (after : After) (ms : List Message) (qs : List Receive)
        (couple : Message → Receive → Bool) (unsent : Message → Bool) (unposted : Receive → Bool)
        → IsLegalBeside after ms qs (λ m q. couple m q ≡ true) (λ m. unsent m ≡ true) (λ q. unposted q ≡ true)
        → IsLegal after ms qs (λ m q. couple m q ≡ true) }
    ensures beside { (after : After) (ms : List Message) (qs : List Receive) (couple : OpName → OpName → Bool)
        → IsLegal after ms qs (IsCoupledBy couple)
        → IsLegalBeside after ms qs (IsCoupledBy couple) (IsLeftUnsent qs couple) (IsLeftUnposted ms couple) }
{}

/// What the pairs of a table mean. Each pair belongs to every legal matching of every continuation. If no receive is
/// open, no message doubtful, and no two parts of one call fit one receive or message, no other matching is legal (MPI
/// 4.0, 3.5); if also no message of a pair comes after its receive, the pairs are themselves a legal matching.
pub fn tables_are_certain()
    ensures certain { (held : List Ops) → AreOwn 0 held → AreCertain held (table_of held).pairs }
    ensures legal { (held : List Ops) → AreOwn 0 held → AreLegalIfSettled held (table_of held).pairs }
    ensures only { (held : List Ops) → AreOwn 0 held → AreAllSettled held → AreTheOnlyLegal held (table_of held).pairs }
{}

/// The pairs of a table are of messages and receives that the ranks made, and stand in order of the message. No message
/// and no receive is in two, so each pair is found by either of them.
pub fn pairs_are_found()
    ensures apart { (held : List Ops) → AreOwn 0 held → ArePairs (table_of held).pairs }
    ensures made { (held : List Ops) → AreOfOps held (table_of held).pairs }
    ensures found { (pairs : List Pair) → ArePairs pairs → AreFoundByBoth pairs }
{}

/// What the rules say of some small runs.
pub fn worked_runs()
    ensures over { Over }
    ensures any_tag { AnyTag }
    ensures hidden { Hidden }
    ensures told_later { ToldLater }
    ensures in_order { InOrder }
    ensures cut_back { CutBack }
    ensures exchanged { Exchanged }
    ensures interleaved { Interleaved }
    ensures freed { Freed }
    ensures two_communicators { TwoCommunicators }
    ensures cancelled_receive { CancelledReceive }
    ensures told_cancelled { ToldCancelled }
    ensures cancelled_message { CancelledMessage }
    ensures behind_a_barrier { BehindABarrier }
    ensures not_behind_a_barrier { NotBehindABarrier }
    ensures of_another_barrier { OfAnotherBarrier }
    ensures behind_the_end { BehindTheEnd }
    ensures not_behind_the_end { NotBehindTheEnd }
    ensures parts_by_tag { PartsByTag }
    ensures parts_in_any_order { PartsInAnyOrder }
    ensures part_behind_part { PartBehindPart }
    ensures open_part { OpenPart }
    ensures given_back { GivenBack }
{}
