//! Laws of the output of a diagnostic. Each is the contract of a function that does nothing, and is
//! stated of the definitions alone.
//!
//! The calls of `codespan_reporting::term` promise the outputs that these laws are about.

ghost use Rattle.std.specs.Prelude.{◌≡◌, ◌*◌, ◌++◌, ◌<◌, ℕ, Bool, List};
ghost use Rattle.std.specs.Cmp.{IsEquivalence};
ghost use Rattle.codespan_base.specs.declared.term.config.Config.{Config};
ghost use Rattle.codespan_base.specs.declared.term.config.DisplayStyle.{DisplayStyle};
ghost use Rattle.codespan_base.specs.declared.term.config.DisplayStyle.TheVariants.{Rich};
ghost use Rattle.codespan_base.specs.declared.term.config.Layout.{Layout};
ghost use Rattle.codespan_base.specs.declared.diagnostic.Diagnostic.{Diagnostic};
ghost use Rattle.codespan_base.specs.FileModel.{FileDatabase, FileModel, line_count};
ghost use Rattle.codespan_base.specs.Labels.{LabelModel};
ghost use Rattle.codespan_base.specs.declared.term.config.styles.Styles.{Styles};
ghost use Rattle.codespan_base.specs.Streams.{Spelling};
ghost use Rattle.codespan_output.specs.RowLaws.{row_length, CharsChangeNoRowLength, RowsEndReset};
ghost use Rattle.codespan_laws.specs.ColorLaws.{ColorsChangeNoText, NoColorIsPlain};
ghost use Rattle.codespan_output.specs.CaretLaws.{CaretsAreCells, PointersAreCells};
ghost use Rattle.codespan_output.specs.CaretLaws.{StartsHaveCells};
ghost use Rattle.codespan_output.specs.RichLaws.{MeansLabels, NoneReversed};
ghost use Rattle.codespan_output.specs.FittedLineLaws.{CanFit, LinesFitWidths};
ghost use Rattle.codespan_output.specs.FittingLaws.{WiderRadiusHasMoreCells};
ghost use Rattle.codespan_output.specs.LaneLaws.{BarsAreLabels, LanesJoinCorners, LanesAreShown};
ghost use Rattle.codespan_output.specs.LineLaws.{BreaksHaveBars, BreaksReplaceLines};
ghost use Rattle.codespan_output.specs.LineLaws.{RowsAreOfShownLines, PaddingFits};
ghost use Rattle.codespan_output.specs.LineLaws.{SourceRowsAreFew};
ghost use Rattle.codespan_output.specs.MessageLaws.{MessagesAppearOnce};
ghost use Rattle.codespan_output.specs.TrailingLaws.{EachMessageTrailsOrHangs};
ghost use Rattle.codespan_laws.specs.OrderLaws.{ReorderingChangesNothing};
ghost use Rattle.codespan_output.specs.SortLaws.{SortedIsStableSort};
ghost use Rattle.codespan_output.specs.StatedNames.{HeadersAreBeforeFailure, OutputIsPicture};
ghost use Rattle.codespan_output.specs.Utf8Laws.{OutputIsUtf8, PictureIsUtf8};
ghost use Rattle.codespan_output.specs.Lanes.{LaneRowKind};
ghost use Rattle.codespan_output.specs.RowParts.{line_metrics, inner_gutter};
ghost use Rattle.codespan_output.specs.OutputStreams.{AreLoci, output};
ghost use Rattle.codespan_output.specs.Picture.{stated_loci};
ghost use Rattle.codespan_output.specs.Rows.{Locus, RowContext, Lanes, Line};
ghost use Rattle.codespan_output.specs.Snippets.{LabeledFileModel, empty_row_after, snippet};

/// States that a rich output means its labels, whatever the loci in it: its rows keep the laws of
/// lines, breaks, carets, pointers, lanes, messages and padding together, each with its own
/// premises, where ids are compared by an equivalence, each file has a line, and the files are
/// lawful if lines have to fit a width.
pub fn outputs_mean_labels<Id>()
    ensures { (renderer_config view_config : Config) (files : FileDatabase Id) (d : Diagnostic Id)
        → IsEquivalence files.same → ((id : Id) → 0 < line_count (files.file id))
        → CanFit renderer_config files
        → (loci : List Locus) → AreLoci files d Rich loci
        → MeansLabels renderer_config view_config files d loci
        (output Rich renderer_config view_config files d loci) }
{}

// ---- drawn lines and breaks

/// States that the drawn lines and the breaks follow from the shown lines: between two consecutive
/// shown lines a single line is filled in, and two or more are replaced by a break.
pub fn rows_are_of_shown_lines()
    ensures { (config : Config) (s : LabeledFileModel) → RowsAreOfShownLines config s }
{}

/// States that a snippet has one break row for each two consecutive shown lines that are three or
/// more apart, in their order, with the lanes of the later line.
pub fn breaks_replace_lines()
    ensures { (config : Config) (locus : Locus) (followed : Bool) (s : LabeledFileModel)
        → BreaksReplaceLines config s (snippet config locus s ++ empty_row_after followed s) }
{}

/// States that a lane has a bar in a break row exactly where its label covers every line that is
/// left out there, where no label of the file starts after its end.
pub fn breaks_have_bars()
    ensures { (config : Config) (layout : Layout) (s : LabeledFileModel)
        → NoneReversed s.labels → BreaksHaveBars config layout s }
{}

/// States that a file has at most twice as many source rows as its labels may show lines by the
/// configuration: for each label two lines, and all its context lines.
pub fn source_rows_are_few()
    ensures { (config : Config) (locus : Locus) (followed : Bool) (s : LabeledFileModel)
        → SourceRowsAreFew config s (snippet config locus s ++ empty_row_after followed s) }
{}

// ---- carets and pointers

/// States that the text of a caret row, between its lanes and its trailing message, is the caret
/// cells of its line.
pub fn carets_are_cells()
    ensures { (context : RowContext) → CaretsAreCells context }
{}

/// States that pointers are in the first cells of the characters in which hanging labels start, and
/// that the message of a label that starts at a character boundary begins there, where each of
/// these characters has a cell.
pub fn pointers_are_cells()
    ensures { (context : RowContext) (line : Line)
        → StartsHaveCells line.labels (line_metrics context line)
        → PointersAreCells context line }
{}

// ---- lanes

/// States that on source and break rows a lane has a bar exactly on the lines after its label's
/// first, up to its last, where no label of the file starts after its end.
pub fn bars_are_labels()
    ensures { (layout : Layout) (s : LabeledFileModel)
        → NoneReversed s.labels → BarsAreLabels layout s }
{}

/// States that each lane is one line, a top corner, bars, and a bottom corner below it, where no
/// label of the file starts after its end. In the classic layout rows of the first line may leave
/// the lane out below a corner in the source row.
pub fn lanes_join_corners()
    ensures { (config : Config) (layout : Layout) (locus : Locus) (followed : Bool)
        (s : LabeledFileModel) → NoneReversed s.labels
        → LanesJoinCorners layout s (snippet config locus s ++ empty_row_after followed s) }
{}

/// States that after the left border the stream of each row that has lanes has what the row shows
/// in each of them, from left to right.
pub fn lanes_are_shown()
    ensures { (context : RowContext) → LanesAreShown context }
{}

/// States that each lane takes two characters.
pub fn lanes_take_two_characters()
    ensures { (context : RowContext) (leading : ℕ) (row : LaneRowKind) (lanes : Lanes)
        → row_length (inner_gutter context leading row lanes) ≡ 2 * lanes.count }
{}

// ---- messages

/// States that each label with a message has it exactly once in a rich output, and that no other
/// message is in it, where ids are compared by an equivalence, each file has a line, and the files
/// are lawful if lines have to fit a width.
pub fn messages_appear_once<Id>()
    ensures { (renderer_config view_config : Config) (files : FileDatabase Id) (d : Diagnostic Id)
        → IsEquivalence files.same → ((id : Id) → 0 < line_count (files.file id))
        → CanFit renderer_config files
        → (loci : List Locus) → AreLoci files d Rich loci
        → MessagesAppearOnce renderer_config view_config files d loci
        (output Rich renderer_config view_config files d loci) }
{}

/// States that of a line's labels with a message at most one trails, and each other one hangs.
pub fn each_message_trails_or_hangs()
    ensures { EachMessageTrailsOrHangs }
{}

// ---- the order of labels

/// States that a reordering of the labels changes nothing in a rich output, its loci included, if
/// it keeps the order of the files by their first labels, of each file's multi-line labels, and of
/// the single-line labels of one line and one drawn range, where ids are compared by an equivalence
/// and equal ids have one file. The two orders may have different ids of a file, if these are
/// equal.
pub fn reordering_changes_nothing<Id>()
    ensures { (same : Id → Id → Bool) (file : Id → FileModel)
        → ReorderingChangesNothing same file }
{}

/// States that `sorted` returns the one stable sort of its argument by ranges. The labels of a line
/// are sorted from their reverse, so of labels with equal ranges the last one comes first.
pub fn sorted_is_stable_sort()
    ensures { (labels : List LabelModel) → SortedIsStableSort labels }
{}

// ---- padding, and every row

/// States that the number of each drawn line fits the padding: in the unbroken layout always, and
/// in the classic one where the configuration shows no lines after labels and the numbers never
/// fall.
pub fn padding_fits()
    ensures { (config : Config) (ss : List LabeledFileModel) → PaddingFits config ss }
{}

/// States that a configuration with other characters, whose text before a locus has as many
/// characters, changes no row's number of characters.
pub fn chars_change_no_row_length()
    ensures { CharsChangeNoRowLength }
{}

/// States that the last style mark of a row, if it has one, is a reset.
pub fn rows_end_reset()
    ensures { RowsEndReset }
{}

// ---- names, texts and colors

/// States that every output has loci: those with the names that the files state, or an empty name
/// where a file states none.
pub fn stated_loci_are_loci<Id>()
    ensures { (files : FileDatabase Id) (d : Diagnostic Id) (display_style : DisplayStyle)
        → AreLoci files d display_style (stated_loci files d display_style) }
{}

/// States that the output is the picture of the diagnostic, where the names of the labels' files
/// are stated.
pub fn output_is_picture<Id>()
    ensures { (files : FileDatabase Id) (d : Diagnostic Id) → OutputIsPicture files d }
{}

/// States that the headers that a failed lookup leaves written are those of the primary labels
/// before the first one for which a lookup fails, where the names of the labels' files are stated.
pub fn headers_are_before_failure<Id>()
    ensures { (files : FileDatabase Id) (d : Diagnostic Id) → HeadersAreBeforeFailure files d }
{}

/// States that in each style the bytes of an output are UTF-8, and that no style mark is inside a
/// character, where the characters of the configuration are Unicode scalar values, the files are
/// lawful, and the names of the loci are UTF-8. The same holds of the picture where the stated
/// names are UTF-8.
pub fn outputs_are_utf8<Id>()
    ensures output { (display_style : DisplayStyle) (renderer_config view_config : Config)
        (files : FileDatabase Id) (d : Diagnostic Id)
        → OutputIsUtf8 display_style renderer_config view_config files d }
    ensures picture { (display_style : DisplayStyle) (renderer_config view_config : Config)
        (files : FileDatabase Id) (d : Diagnostic Id)
        → PictureIsUtf8 display_style renderer_config view_config files d }
{}

/// States that colors change no text: however a writer spells style marks, what it writes of an
/// output is the plain text with the bytes of style marks between. Over `NoColor` a style mark has
/// no bytes, whatever the styles.
pub fn colors_change_no_text<Id>()
    ensures spelled { (spelling : Spelling) (display_style : DisplayStyle)
        (renderer_config view_config : Config) (files : FileDatabase Id) (d : Diagnostic Id)
        (loci : List Locus)
        → ColorsChangeNoText spelling
        (output display_style renderer_config view_config files d loci) }
    ensures colorless { (styles : Styles) (display_style : DisplayStyle)
        (renderer_config view_config : Config) (files : FileDatabase Id) (d : Diagnostic Id)
        (loci : List Locus)
        → NoColorIsPlain styles (output display_style renderer_config view_config files d loci) }
{}

// ---- lines that fit a width

/// States that a line that is shortened never has fewer cells at a wider radius, whatever of its
/// labels has to be shown.
pub fn wider_radius_has_more_cells()
    ensures { (label_spans : ℕ → LabelModel → List (ℕ × ℕ)) (tab_width : ℕ) (line : Line)
        → WiderRadiusHasMoreCells label_spans tab_width line }
{}

/// States what a line is that fits a width, by its definition in `FittedLines`: what it shows of
/// the line, and where its labels are, what its rows are, how many cells it has, and that to fit it
/// once more changes nothing.
pub fn lines_fit_widths()
    ensures { LinesFitWidths }
{}
