//! The theorems: what holds of the definition whatever the text, each as the contract of a function that does nothing.
//! Every public entry answers what the definition says, so they hold of every answer of the library.
#![tactic(auto)]

ghost use Rattle.std.specs.Prelude.{ℕ, suc, ◌+◌, ◌-◌, ◌*◌, ◌%◌, ◌≤◌, ◌<◌, ◌≡◌, true, false, List, [], ◌∷◌, ◌++◌};
ghost use Rattle.std.specs.Prelude.{length, map, Option, Some, T, ◌⊎◌};
ghost use Rattle.definition.specs.declared.Span.{Span};
ghost use Rattle.definition.specs.declared.Token.{Token};
ghost use Rattle.definition.specs.declared.Owner.{Owner};
ghost use Rattle.definition.specs.declared.Extract.{Extract};
ghost use Rattle.definition.specs.declared.Refusal.{Refusal};
ghost use Rattle.definition.specs.declared.Pictured.{Pictured};
ghost use Rattle.definition.specs.declared.Statement.{Statement};
ghost use Rattle.definition.specs.Basic.{part, Answer, Ok, Err, is_given, fewest, sum};
ghost use Rattle.definition.specs.Words.{statement_words, periods, tokens_of};
ghost use Rattle.definition.specs.Unquoted.{bare_words, plain_text};
ghost use Rattle.definition.specs.Tree.{Forest, forest, parents, parents_in};
ghost use Rattle.definition.specs.Usages.{inherit_along, inherited};
ghost use Rattle.definition.specs.Fold.{Entries, times, same_name, Place, search_back};
ghost use Rattle.theorems.specs.Distance.{NoneNamed, StopsAtTheName};
ghost use Rattle.definition.specs.Record.{record_length, unfolded, layout};
ghost use Rattle.definition.specs.Layout.{lay};
ghost use Rattle.definition.specs.Owner.{occurrence, slack, extent, once, laid, pieces, owner_of, overlaid};
ghost use Rattle.definition.specs.Search.{entries#, seek, rows, walk};
ghost use Rattle.definition.specs.Details.{details_in, listing_details, FirstBytes, Following, height};
ghost use Rattle.definition.specs.Listing.{members#, listing};
ghost use Rattle.definition.specs.Wording.{wording};
ghost use Rattle.definition.specs.Cards.{view, view_in};
ghost use Rattle.definition.specs.declared.Form.{Form};
ghost use Rattle.definition.specs.Storage.{elementary};
ghost use Rattle.definition.specs.Calls.{entries, record_fields, called, Question, asked, extract_in, left, layout_call};
ghost use Rattle.definition.specs.Calls.{entry_checks, literal_check, indicator_check};
ghost use Rattle.theorems.specs.Keys.{KeyAnswers};
ghost use Rattle.theorems.specs.Ungrouped.{entries_alone, listed as listed_alone, but_words, lasting_all, plain_usages};
ghost use Rattle.theorems.specs.Restarted.{entries_restarted, plain_slack};
ghost use Rattle.theorems.specs.Original.{entries_then};
ghost use Rattle.definition.specs.Demand.{Fewest, Tells, spot, spots_of, Among, Demand, Kept};
ghost use Rattle.definition.specs.Explained.{Explained};
ghost use Rattle.definition.specs.Extracted.{Extracted};
ghost use Rattle.theorems.specs.Chains.{Chained};
ghost use Rattle.theorems.specs.Subsets.{Heaviest};
ghost use Rattle.theorems.specs.Numbers.{RefusalNumbers, KindNumbers, Limits};
ghost use Rattle.theorems.specs.Fields.{FieldsOf, AlignedBySync};
ghost use Rattle.theorems.specs.Premises.{all_right, premises};
ghost use Rattle.theorems.specs.Answered.{Answered};
ghost use Rattle.theorems.specs.Sentences.{OfStatements, StatementsInOrder, OneByOne};
ghost use Rattle.theorems.specs.CardLines.{lines, join, visible, first_other_of, refused_at};
ghost use Rattle.theorems.specs.Standing.{standing, head, all_rows, FirstOwned};
ghost use Rattle.theorems.specs.ReadBack.{read_listing, listed};
ghost use Rattle.theorems.specs.Catches.{all, table, fish_listing};
ghost use Rattle.theorems.specs.Occurrences.{Occurs, Slackened, Ended, pieces#, counts};

// ---------------------------------------------------------------- the bytes of the record

/// Of every accepted copybook, free text or cards, the listing's entries keep the owner rule: without REDEFINES and
/// DEPENDING ON, a dropped root's own aside, every byte of the record has exactly one owner, and the byte owner names
/// it; with one it refuses every position.
#[tactic(auto, using(definition::proofs::Demand3::demand3))]
pub fn every_byte_has_one_owner()
    ensures { (form : Form) (text : List ℕ) (work : ℕ) (es : Entries) →
        called form (λ t. entries t work) text work ≡ Ok es → Kept form text work es }
{}

/// Whatever a call for the layout listing answers and leaves in the output, of free text or of cards: what it writes is
/// the listing of entries that keep the owner rule, so that, where that record has no REDEFINES and no DEPENDING ON, a
/// call of the byte owner on that text, with work memory enough, answers for each byte below the record length with the
/// one piece, or slack, that has it; a refusal leaves the output as it was, and is 31 or the reader's.
pub fn a_listing_and_its_owners_agree()
    ensures { (form : Form) (text out work : List ℕ) (r : Answer ℕ) (out' work' : List ℕ) →
        left r out' work' ≡ layout_call form text out work → Answered form text out work r out' }
{}

/// The owner rule, occurrence by occurrence: from the sum of offset + number × width along the groups around an
/// elementary entry on, for each choice of occurrence numbers below the counts, the bytes are its piece.
pub fn each_occurrence_is_owned()
    ensures { (text : List ℕ) (owner : ℕ → Answer Owner) (f : Forest) (es : Entries) → Demand text owner f es →
        (k first width place : ℕ) → Occurs 0 0 es (spot (occurrence k) first width) → place < width →
        owner (first + place) ≡ Ok (Owner.Piece k first place) }
{}

/// And a byte that is owned by a piece is a byte of such an occurrence.
pub fn what_is_owned_occurs()
    ensures { (text : List ℕ) (owner : ℕ → Answer Owner) (f : Forest) (es : Entries) → Demand text owner f es →
        (q k first place : ℕ) → q < record_length es → owner q ≡ Ok (Owner.Piece k first place) →
        (width : ℕ) × Occurs 0 0 es (spot (occurrence k) first width) × (place < width) × (q ≡ first + place) }
{}

/// There are as many pieces of an entry as the counts of it and of the groups around it multiply to.
#[tactic(auto, using(crate::proofs::Occurrences::counted))]
pub fn counts_multiply()
    ensures { (n : ℕ) (es : Entries) → pieces# n (spots_of 0 0 es) ≡ counts n 0 es }
{}

/// Slack stands only directly before an elementary SYNC binary or float item, and is the fewest bytes that align it in
/// the record; or at the end of an occurrence of a group with OCCURS and without DEPENDING ON that holds such an item,
/// and is the fewest bytes that bring its width to a multiple of the largest alignment in it.
pub fn slack_aligns_an_item_or_an_end()
    ensures { (text : List ℕ) (f : Forest) (es : Entries) (n first width : ℕ) → Tells text 0 0 f es →
        Among (spot (slack n) first width) (spots_of 0 0 es) → Slackened text f first width ⊎ Ended text f first width }
{}

/// Each occurrence of an item without DEPENDING ON, laid at its own place, is laid as the first one is: the width of a
/// group with OCCURS is a multiple of the largest alignment in it.
#[tactic(auto, using(crate::proofs::Named::occurrence_alike))]
pub fn occurrences_are_laid_alike()
    ensures { (text : List ℕ) (k place : ℕ) (s : Statement) (kids : Forest) (i : ℕ) →
        is_given s.clauses.depending ≡ false → i < times s.clauses.occurs →
        let one = once text k s kids (λ p. laid text (suc k) p kids) in
        one (place + i * extent (one place)) ≡ one place }
{}

/// Of a list's place in the record only the remainder by 8 matters.
#[tactic(auto, using(crate::proofs::Named::lay_remainder))]
pub fn only_the_remainder_by_8_matters()
    ensures { (text : List ℕ) (f : Forest) (depth base : ℕ) (seen : List Place) (cursor reach : ℕ) →
        lay text depth base seen cursor reach f ≡ lay text depth (base % 8) seen cursor reach f }
{}

/// What aligns a place is below the alignment and the smallest number that brings the place to a multiple of it; and no
/// other number is.
pub fn alignment_takes_the_fewest_bytes()
    ensures least { (alignment place : ℕ) → 0 < alignment → Fewest alignment place (fewest alignment place) }
    ensures only { (alignment place n : ℕ) → 0 < alignment → Fewest alignment place n → n ≡ fewest alignment place }
{}

/// The owner of a byte is found among the entries of the listing, with no piece laid, and by a walk from row to row.
#[tactic(auto, using(definition::proofs::Demand3::sought, definition::proofs::Demand3::walked))]
pub fn owners_are_found_among_the_entries()
    ensures sought { (text : List ℕ) (f : Forest) (es : Entries) → layout text f ≡ Ok es → overlaid f ≡ false →
        (q : ℕ) → seek 0 0 es q ≡ owner_of (pieces text f) q }
    ensures walked { (text : List ℕ) (f : Forest) (es : Entries) → layout text f ≡ Ok es → overlaid f ≡ false →
        (q : ℕ) → q < record_length es → walk 0 0 0 (rows es) q ≡ owner_of (pieces text f) q }
{}

/// What the reader refuses is refused whatever is asked of the record, with the same refusal.
#[tactic(auto, using(crate::proofs::Named::reader_refuses))]
pub fn what_the_reader_refuses_is_refused<A>()
    ensures { (question : Question A) (text : List ℕ) (work : ℕ) (r : Refusal) →
        entries text work ≡ Err r → asked question text work ≡ Err r }
{}

// ---------------------------------------------------------------- reasons and details

/// For each entry of an accepted copybook, free text or cards, the reasons that are answered are those by which the
/// layout rules placed it, and the bytes that they add are its first byte in the record.
#[tactic(auto, using(definition::proofs::Why::explained))]
pub fn every_place_has_its_reasons()
    ensures { (form : Form) (text : List ℕ) (work : ℕ) (es : Entries) →
        called form (λ t. entries t work) text work ≡ Ok es → Explained form text work es }
{}

/// The bytes that are answered of an entry are its item's own reasons, then for each group outward kind 5 and the
/// group's own, each in 13 bytes.
#[tactic(auto, using(crate::proofs::ChainLaws::chained))]
pub fn reasons_go_outward()
    ensures { (form : Form) (text : List ℕ) (work : ℕ) (es : Entries) →
        called form (λ t. entries t work) text work ≡ Ok es → Chained form text work es }
{}

/// The first byte of a member is its group's plus its offset, and that of an entry at the top is its offset.
#[tactic(auto, using(definition::proofs::DetailLaws::inside))]
pub fn first_bytes_add_up()
    ensures { (es : Entries) → FirstBytes [] (details_in 0 0 es) }
{}

/// The details are a head, which has the dropped root, and then of each entry its row, byte by byte: its level, how many
/// groups are around it, and as its first byte the sum of its offset and theirs, among the rest.
#[tactic(auto, using(crate::proofs::StandingLaws::details_stand))]
pub fn details_tell_where_entries_stand()
    ensures { (root : Option Statement) (es : Entries) →
        listing_details root es ≡ head root es ++ all_rows (standing [] es) }
{}

/// Where the owner rule holds and an elementary entry and each group around it stand at least once, the first byte that
/// the details have of it is where the owner finds it.
pub fn owners_are_found_at_the_first_byte()
    ensures { (text : List ℕ) (owner : ℕ → Answer Owner) (f : Forest) (es : Entries) → Demand text owner f es →
        FirstOwned owner es }
{}

/// Before folding, slack begins where the latest earlier item without REDEFINES ends, or where its list does; a
/// redefiner has none.
#[tactic(auto, using(definition::proofs::DetailLaws::following))]
pub fn slack_follows_the_item_before()
    ensures { (text : List ℕ) (f : Forest) (es : Entries) → unfolded text f ≡ Ok es → Following 0 es }
{}

/// The lists of a listing nest at most 130 deep, so that a depth takes one byte.
pub fn lists_nest_at_most_130_deep()
    ensures { (text : List ℕ) (f : Forest) (es : Entries) → layout text f ≡ Ok es → height es ≤ 130 }
{}

/// The details have a head of 17 bytes, and 63 for each entry of the listing.
#[tactic(auto, using(crate::proofs::Named::details_length))]
pub fn details_have_63_bytes_an_entry()
    ensures { (root : Option Statement) (es : Entries) → length (listing_details root es) ≡ 17 + 63 * entries# es }
{}

// ---------------------------------------------------------------- the listing

/// The bytes of the listing of an accepted copybook, free text or cards, read back, are its entries: none is lost or
/// invented.
#[tactic(auto, using(crate::proofs::FitLaws::read_back))]
pub fn listings_can_be_read_back()
    ensures { (form : Form) (text : List ℕ) (work : ℕ) (es : Entries) →
        called form (λ t. entries t work) text work ≡ Ok es → read_listing (listing es) ≡ listed es }
{}

// ---------------------------------------------------------------- extracts and keys

/// Every extract that is not refused is the heaviest fitting choice among the subsets looked at, the earliest if equal,
/// and no choice outweighs it by more than the answer says; with all looked at, none does.
#[tactic(auto, using(definition::proofs::ExtractLaws::extracted))]
pub fn an_extract_is_the_heaviest_that_fits()
    ensures { (text : List ℕ) (work : ℕ) (weights : List ℕ) (limit budget : ℕ) (a : Extract) →
        asked (extract_in weights limit budget) text work ≡ Ok a → Extracted text work weights limit budget a }
{}

/// By numbers alone: as many subsets are looked at as the smaller of the budget and all, from number 0 up; item i is in
/// a subset if and only if bit i of its number is set; the answer is the heaviest of them that fits, the earliest if
/// equal.
#[tactic(auto, using(crate::proofs::SubsetLaws::heaviest))]
pub fn subsets_are_the_bits_of_a_number()
    ensures { (text : List ℕ) (work : ℕ) (weights : List ℕ) (limit budget : ℕ) (a : Extract) →
        asked (extract_in weights limit budget) text work ≡ Ok a → Heaviest text work weights limit budget a }
{}

/// A set is 2 to 16 copybooks whose lengths add up to the bytes handed in, else 56; the first that the reader refuses
/// gives its refusal; the offset and width that are answered are those of the one entry of that name at the top of each,
/// all alike, and without one it is 57.
#[tactic(auto, using(crate::proofs::KeyLaws::answers))]
pub fn a_key_is_one_column_in_all()
    ensures { (texts lengths name : List ℕ) (work : ℕ) → KeyAnswers texts lengths name work }
{}

// ---------------------------------------------------------------- names, parents and usages

/// The search for a REDEFINES target ends at the first match back from the item, and the names that it compared are
/// exactly the distance back to the match, or all earlier siblings where none has the name.
pub fn a_target_is_the_nearest_of_its_name()
    ensures stops { (text : List ℕ) (w : Span) → StopsAtTheName text w }
    ensures distance { (text : List ℕ) (w : Span) (nearer : List Place) (p : Place) (further : List Place) →
        NoneNamed text w nearer → same_name text w p.name ≡ true →
        search_back text w (nearer ++ p ∷ further) ≡ record { found = Some p.offset; compared = suc (length nearer) } }
{}

/// The fields of a record are those of its kept statements; the first is dropped where others follow and all of them
/// have a higher level. The record is overlaid if and only if one of these has a REDEFINES or a DEPENDING ON.
#[tactic(auto, using(crate::proofs::FieldLaws::fields_of))]
pub fn one_root_is_dropped()
    ensures { (text : List ℕ) (work : ℕ) (f : Forest) → record_fields text work ≡ Ok f → FieldsOf text f }
{}

/// An elementary item is aligned if and only if it has SYNC and no REDEFINES and is binary or a float; a group never is.
#[tactic(auto, using(crate::proofs::FieldLaws::aligned_by_sync))]
pub fn sync_aligns_binary_and_floats()
    ensures { (text : List ℕ) (s : Statement) (c : Pictured) → elementary text s ≡ Ok c → AlignedBySync text s c }
{}

/// Statements read one by one, each with the nearest earlier one of a smaller level as its parent, are the forest.
#[tactic(auto, using(crate::proofs::Named::parents_forest))]
pub fn parents_are_the_nearest_of_a_smaller_level()
    ensures { (ss : List Statement) → parents [] 0 ss ≡ parents_in 0 0 (forest ss) }
{}

/// Usages taken from the nearest open statement while reading are those that the forest's groups hand down.
#[tactic(auto, using(crate::proofs::Named::along_forest))]
pub fn usages_come_down_while_reading()
    ensures { (ss : List Statement) → forest (inherit_along [] 0 ss) ≡ inherited (forest ss) }
{}

// ---------------------------------------------------------------- as the Rust module has it

/// A copybook in which no group names a usage, no DISPLAY stands after another usage word and no word names a float has
/// the listing that it has where each statement has its own usage alone, and its entries but for the places of usage
/// words. Both are laid out as today.
#[tactic(auto, using(crate::proofs::Named::same_usages))]
pub fn plain_usages_have_the_entries_that_they_had()
    ensures listing { (text : List ℕ) (work : ℕ) → plain_usages text ≡ true →
        listed_alone (entries_alone text work) ≡ listed_alone (entries text work) }
    ensures entries { (text : List ℕ) (work : ℕ) → plain_usages text ≡ true →
        but_words (entries_alone text work) ≡ but_words (entries text work) }
{}

/// A copybook with no SYNC below the fields of its record, and no refusal inside a group whose target is missing, has the
/// entries that it had while alignment restarted in each list and no group had slack at its end.
#[tactic(auto, using(crate::proofs::Named::same_slack))]
pub fn plain_slack_has_the_entries_that_it_had()
    ensures { (text : List ℕ) (work : ℕ) → plain_slack text ≡ true → entries_restarted text work ≡ entries text work }
{}

/// A copybook that meets both premises, of slack and of usages, has the listing that it had while alignment restarted
/// in each list and each statement had its own usage alone, and its entries but for the places of usage words: literals
/// aside, these are the Rust module's.
#[tactic(auto, using(crate::proofs::Named::same_then))]
pub fn plain_copybooks_have_the_entries_of_the_rust()
    ensures listing { (text : List ℕ) (work : ℕ) → plain_slack text ≡ true → plain_usages text ≡ true →
        listed_alone (entries_then text work) ≡ listed_alone (entries text work) }
    ensures entries { (text : List ℕ) (work : ℕ) → plain_slack text ≡ true → plain_usages text ≡ true →
        but_words (entries_then text work) ≡ but_words (entries text work) }
{}

/// A text in which no literal holds a period that would end a statement, or `*>`, and none is left open, has the words
/// that it has without literals, and no refusal 50.
#[tactic(auto, using(crate::proofs::Named::plain_words))]
pub fn plain_texts_have_the_words_that_they_had()
    ensures words { (text : List ℕ) → plain_text text ≡ true → statement_words text ≡ bare_words text }
    ensures shut { (text : List ℕ) → plain_text text ≡ true → literal_check text ≡ Ok tt }
{}

// ---------------------------------------------------------------- words

/// Each word that the reader sees, of cards too, has the same bytes in the copybook's own text.
#[tactic(auto, using(crate::proofs::WordsLaws::words_stand))]
pub fn words_stand_in_the_text()
    ensures { (form : Form) (text : List ℕ) →
        OfStatements (λ w. part (view_in form text) w ≡ part text w) (statement_words (view_in form text)) }
{}

/// The words of statements stand in order in the text that the reader sees, none over another and each unbroken by
/// white space; a statement's words stand before the period that ends it, and behind that of the one before.
#[tactic(auto, using(crate::proofs::WordsLaws::words_in_order))]
pub fn words_stand_in_order()
    ensures { (text : List ℕ) → StatementsInOrder text 0 (statement_words text) (periods (tokens_of text)) }
{}

/// What is answered of the words has at most 8 bytes for each byte of the text, and 8 more.
#[tactic(auto, using(definition::proofs::WordingLaws::words_most))]
pub fn words_take_at_most_8_bytes_a_byte()
    ensures { (text : List ℕ) → length (wording text) ≤ 8 * length text + 8 }
{}

/// A reader may go statement by statement: the statements of some tokens are the one that the first word begins, or an
/// empty one before a period, and then those of the tokens after it.
pub fn statements_come_one_by_one()
    ensures { (ts : List Token) → OneByOne ts }
{}

// ---------------------------------------------------------------- cards

/// What is seen of cards is, line by line, columns 8 to 72 of the lines with a blank indicator, at the same places, and
/// nothing else.
#[tactic(auto, using(crate::proofs::CardLineLaws::view_seen))]
pub fn columns_8_to_72_are_seen()
    ensures { (cards : List ℕ) → view cards ≡ join (map visible (lines cards)) }
{}

/// The first line that has a column 7, and there none of blank, `*`, `/` and `D`, is refused at that byte.
#[tactic(auto, using(crate::proofs::CardLineLaws::other_refused))]
pub fn other_indicators_are_refused()
    ensures { (cards : List ℕ) → indicator_check cards ≡ refused_at (first_other_of 0 (lines cards)) }
{}

/// Cards that pass the checks of the text and of the work memory are seen as a text that passes them.
#[tactic(auto, using(crate::proofs::Named::view_checks))]
pub fn what_is_seen_of_cards_passes_their_checks()
    ensures { (cards : List ℕ) (work : ℕ) → entry_checks cards work ≡ Ok tt → entry_checks (view cards) work ≡ Ok tt }
{}

// ---------------------------------------------------------------- numbers

/// The numbers of refusals, the positions and lengths that they carry, the numbers of kinds, signs and storages, and the
/// limits are those of one table.
#[tactic(auto, using(crate::proofs::Numbers::refusal_numbers, crate::proofs::Numbers::kind_numbers, crate::proofs::Numbers::limits))]
pub fn numbers_are_those_of_the_table()
    ensures refusals { RefusalNumbers }
    ensures kinds { KindNumbers }
    ensures limits { Limits }
{}

// ---------------------------------------------------------------- rows

/// Every row of the table of catches is right: the definition is computed at each. The worked example's listing has 129
/// bytes.
pub fn the_catches_are_right()
    ensures rows { T (all table) }
    ensures worked { length fish_listing ≡ 129 }
{}

/// Each test that is a law's premise holds of some texts and fails of others, and at some of these the readings that the
/// law compares differ.
pub fn premises_hold_and_fail()
    ensures { T (all_right premises) }
{}
