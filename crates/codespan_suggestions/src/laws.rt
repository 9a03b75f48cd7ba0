//! Laws of suggestions. Each is the contract of a function that does nothing and does not fail.

ghost use Rattle.codespan_suggestions.specs.ActionLaws.{CodeActionsMakeTexts};
ghost use Rattle.codespan_suggestions.specs.BorderLaws.{BordersAreInOneColumn};
ghost use Rattle.codespan_suggestions.specs.PatchLaws.{UnifiedDiffsArePatches};
ghost use Rattle.codespan_suggestions.specs.ReadingLaws.{SourcesAndOutputGiveTexts};
ghost use Rattle.codespan_suggestions.specs.ReadingLaws.{DefaultCharactersAreReadable};
ghost use Rattle.codespan_suggestions.specs.ReadingLaws.{SameOutputMakesSameTexts};
ghost use Rattle.codespan_suggestions.specs.RenderingLaws.{ShownIsMade};
ghost use Rattle.codespan_suggestions.specs.SuggestionLaws.{FilesComeOnce, ErrorsNameEdits};
ghost use Rattle.codespan_suggestions.specs.SuggestionLaws.{OrderMattersToFilesAndInsertions};
ghost use Rattle.codespan_suggestions.specs.WrittenLaws.{StatedNamesAreWritten, FixItsReadBack};

/// States that each file of a suggestion comes once: no two of its files are equal, and each edit's
/// file is among them, where ids are compared by an equivalence, as [`Eq`] has it.
pub fn files_come_once<Id>()
    ensures { FilesComeOnce Id }
{}

/// States that where a suggestion fails with a fault of its edits, each index in it is that of an
/// edit of the suggestion, and that the fault is not `OutOfMemory`.
pub fn errors_name_edits<Id>()
    ensures { ErrorsNameEdits Id }
{}

/// States that of the order of a suggestion's edits only that of the files, by their first edits,
/// and that of the insertions at a byte matters: of two suggestions with the same edits, and with
/// these in the same order, both have a fault, or both make the same texts.
pub fn order_matters_to_files_and_insertions<Id>()
    ensures { OrderMattersToFilesAndInsertions Id }
{}

/// States that what is shown is what is made: whatever the context, what the rows of a file show in
/// rich style, read as rows with numbers, is a patch that makes the lines of the file's text after
/// the edits of those of its text.
pub fn shown_is_made()
    ensures { ShownIsMade }
{}

/// States that the sources and the output in rich style give the texts after the edits: the text of
/// the output reads as rows of each file that is shown, and by their numbers these make the lines
/// of the file's text after the edits, as they are shown, of those of its source. Where no line
/// that is drawn has a tab, they make the bytes. The border must not be a digit or a space, and not
/// what a file's start begins with; message and names have no newline.
pub fn sources_and_output_give_texts<Id>()
    ensures { SourcesAndOutputGiveTexts Id }
{}

/// States that two suggestions that show the same files and have the same output in rich style make
/// the same texts of these files, where no line that is drawn has a tab.
pub fn same_output_makes_same_texts<Id>()
    ensures { SameOutputMakesSameTexts Id }
{}

/// States that both default sets of characters, box drawing and ASCII, are such that
/// [`sources_and_output_give_texts`] speaks of them.
pub fn default_characters_are_readable()
    ensures { DefaultCharactersAreReadable }
{}

/// States that where the database states the names of all edited files, these are the only names
/// with which `fix_its` and `unified_diff` can write them: so each returns one text.
pub fn stated_names_are_written<Id>()
    ensures { StatedNamesAreWritten Id }
{}

/// States that a fix-it reads back: two that are written the same, whatever follows them, are of
/// one name, one range and one replacement.
pub fn fix_its_read_back()
    ensures { FixItsReadBack }
{}

/// States that the unified diff is a patch, there and back: read by the numbers and the counts of
/// its heads, it has rows of each file that changes, which make the lines of the file's text after
/// the edits of those of its text, and with signs and numbers exchanged the other way round.
pub fn unified_diffs_are_patches<Id>()
    ensures { UnifiedDiffsArePatches Id }
{}

/// States that all borders of an output in rich style are in one column: each row but the header
/// and the last one has two numbers in their cells, or spaces in place of one, and then the border,
/// the break or the start of a file.
pub fn borders_are_in_one_column<Id>()
    ensures { BordersAreInOneColumn Id }
{}

/// States that the text edits of a code action make the text of their file after the edits: their
/// positions are those of bytes, and the edits of these bytes make it, one after another from the
/// last to the first. No insertion follows an edit that replaces bytes from the same one on. The
/// file has to be lawful, and its edits and their positions without an error.
pub fn code_actions_make_texts<Id>()
    ensures { CodeActionsMakeTexts Id }
{}
