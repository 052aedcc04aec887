// What the answers of a sheet mean: each function's contract is a theorem about the definitions in specs/.
#![tactic(auto)]

ghost use Rattle.theory.specs.Statements.{ValueLaw, ShortLaw, ContradictionLaw, MustLaw, LockedLaw};
ghost use Rattle.theory.specs.Laws.{ClosureLaw, LowestLaw, ClassesLaw, WideLaw, NoValueLaw, AddLaw, DifferLaw, TwinsLaw, TwinLaw};
ghost use Rattle.theory.specs.Reasons.{StepLaw, DerivationLaw, ExplainsLaw};
ghost use Rattle.theory.specs.Calls.{AnswerLaw, AlikeLaw, ChecksLaw};
ghost use Rattle.theory.specs.Slices.{FewLaw, SliceLaw};
ghost use Rattle.theory.specs.Parts.{JoinLaw, PartsLaw};
ghost use Rattle.theory.specs.Journal.{JoinMoreLaw, EntryMoreLaw, PictureMoreLaw, TracksLaw, TracksMoreLaw};
ghost use Rattle.theory.specs.Runs.{RunLaw, SameCallsLaw, CapacityLaw};
ghost use Rattle.theory.specs.Numbers.{NumbersLaw, NextNumberLaw};
ghost use Rattle.theory.specs.Leaving.{StandsLaw, RefusalLaw, RefusedLaw, AppendedLaw, AskedLaw, TurnedLaw, LockingLaw, SameAnswersLaw, CallMoreLaw};
ghost use Rattle.theory.specs.Breaking.{BrokenLaw, DetailLaw, NoDetailLaw, WritesLaw, StepsLaw, NoStepsLaw};
ghost use Rattle.theory.specs.Examples.{ExamplesLaw};
ghost use Rattle.theory.specs.Samples.{SamplesLaw};

// The value of a picture is its operation's result for the list of its inputs' values, and only what a reading gives for lists of at most four numbers counts.
pub fn a_value_is_its_operations_result()
    ensures value { ValueLaw }
    ensures short { ShortLaw }
{}

// The closure is an equivalence, holds every `same` entry, puts twins together, and lies in every relation that does so.
pub fn the_closure_is_the_least_congruence()
    ensures { ClosureLaw }
{}

// A class has exactly one lowest number.
pub fn a_class_has_one_lowest_number()
    ensures { LowestLaw }
{}

// There is exactly one number of classes.
pub fn there_is_one_number_of_classes()
    ensures { ClassesLaw }
{}

// apply answers 0 wherever one of its numbers is no picture's.
pub fn apply_gives_nothing_for_wide_numbers()
    ensures { WideLaw }
{}

// apply answers 0 wherever one of its numbers is no picture's value, as 0 and every number above the count are none.
pub fn apply_gives_nothing_for_what_is_no_value()
    ensures { NoValueLaw }
{}

// One picture more leaves the closure on the earlier pictures as it was, and a `differ` entry more leaves it as it was.
pub fn a_picture_more_leaves_the_closure()
    ensures add { AddLaw }
    ensures differ { DifferLaw }
{}

// Two sources with one operation are twins, and pictures with different numbers of inputs never; a picture that is added and is a twin joins its class at once.
pub fn a_twin_joins_its_class_at_once()
    ensures twins { TwinsLaw }
    ensures twin { TwinLaw }
{}

// No reading satisfies the entries exactly when some `differ` entry is broken.
pub fn no_reading_means_a_broken_entry()
    ensures { ContradictionLaw }
{}

// Where some reading satisfies the entries, two pictures are in one class exactly when every reading that satisfies the entries gives them one value.
pub fn must_is_what_every_reading_gives()
    ensures { MustLaw }
{}

// Where some reading satisfies the entries, the reading of a locked sheet gives each picture the lowest number of its class, satisfies every entry, and gives two pictures one value only where
// every satisfying reading does.
pub fn the_locked_reading_shows_nothing_more()
    ensures { LockedLaw }
{}

// Each step of a chain names a `same` entry, or twins whose inputs the steps before it join, and joins what they do not join.
pub fn a_chain_goes_step_by_step()
    ensures { StepLaw }
{}

// What a reason chain joins is in one class.
pub fn a_chain_proves_what_it_joins()
    ensures { DerivationLaw }
{}

// Two pictures of one class have a reason chain that joins them.
pub fn one_class_has_a_chain()
    ensures { ExplainsLaw }
{}

// A reason chain has fewer steps than there are pictures.
pub fn a_chain_is_shorter_than_the_sheet()
    ensures { FewLaw }
{}

// The steps of a chain that stand on one another are a chain.
pub fn a_supported_part_of_a_chain_is_a_chain()
    ensures { SliceLaw }
{}

// A join of two classes leaves exactly one class fewer, whichever representative is kept; and the classes of labels that tell the closure are its classes.
pub fn a_join_costs_one_class()
    ensures join { JoinLaw }
    ensures parts { PartsLaw }
{}

// One join more, one entry more and one picture more keep a journal of joins a chain, and labels go on to tell what it joins.
pub fn a_journal_stays_a_chain()
    ensures join_more { JoinMoreLaw }
    ensures entry_more { EntryMoreLaw }
    ensures picture_more { PictureMoreLaw }
    ensures tracks { TracksLaw }
    ensures tracks_more { TracksMoreLaw }
{}

// On a sheet each call has an answer, and two answers to it are the same apart from the steps of the chain.
pub fn a_call_has_one_answer()
    ensures answer { AnswerLaw }
    ensures alike { AlikeLaw }
{}

// Every refusal has its number exactly when its row of the table says, where the rows above it let the call pass.
pub fn the_refusals_follow_their_table()
    ensures { ChecksLaw }
{}

// Each number from 1 to the count of entries is the number of exactly one entry; and an entry that is taken gets the next number and keeps it.
pub fn an_entry_has_one_number()
    ensures numbers { NumbersLaw }
    ensures next_number { NextNumberLaw }
{}

// The broken entry is the lowest `differ` entry whose pictures the closure joins.
pub fn the_broken_entry_is_the_lowest()
    ensures { BrokenLaw }
{}

// A `differ` entry that is refused as a contradiction is its own broken entry, for a `same` entry it is one of those taken, and every other refusal has the
// detail 0.
pub fn a_refused_differ_is_its_own_broken_entry()
    ensures detail { DetailLaw }
    ensures no_detail { NoDetailLaw }
{}

// Only why and a refusal as a contradiction write a chain: that of a refusal joins the two pictures of the broken entry, that of why those of the call; one with no
// steps joins a picture with itself alone.
pub fn a_chain_joins_what_its_call_names()
    ensures writes { WritesLaw }
    ensures steps { StepsLaw }
    ensures no_steps { NoStepsLaw }
{}

// An open sheet has add, the entries, must, why and lock; a locked one must, why, value, apply and reopen; neither has another call.
pub fn a_call_stands_where_its_sheet_has_it()
    ensures { StandsLaw }
{}

// A refused call leaves the sheet as it was, and one that is not refused appends its picture or its entry and nothing else.
pub fn a_refused_call_leaves_the_sheet()
    ensures refusal { RefusalLaw }
    ensures refused { RefusedLaw }
    ensures appended { AppendedLaw }
{}

// must, why, value and apply leave the sheet as it was; must and why answer alike on an open and on a locked sheet.
pub fn asking_leaves_the_sheet()
    ensures asked { AskedLaw }
    ensures same_answers { SameAnswersLaw }
{}

// reopen gives back the sheet that was locked; a sheet starts open, and only lock locks it.
pub fn reopen_gives_back_what_was_locked()
    ensures turned { TurnedLaw }
    ensures locking { LockingLaw }
{}

// Each call of a run stands on what the calls before it leave, and has its answer there.
pub fn a_run_goes_on_call_by_call()
    ensures { CallMoreLaw }
{}

// What a run leaves follows from its calls, and so do its answers apart from the steps of chains; the capacity matters only where there is no room.
pub fn a_run_follows_from_its_calls()
    ensures same_calls { SameCallsLaw }
    ensures capacity { CapacityLaw }
{}

// Whatever the calls of a run were: some reading satisfies the entries taken; the next entry is refused as a contradiction exactly when no reading satisfies
// it with them; must says yes exactly when every satisfying reading gives one value; and the reading that apply gives shows that nothing more was forced.
pub fn runs_keep_the_laws()
    ensures { RunLaw }
{}

// The worked examples answer as the rules say.
pub fn the_worked_examples_hold()
    ensures { ExamplesLaw }
{}

// So do further examples, with several broken entries, one numbering, why, the refusals, a sheet opened again and a full keeper.
pub fn the_further_examples_hold()
    ensures { SamplesLaw }
{}
