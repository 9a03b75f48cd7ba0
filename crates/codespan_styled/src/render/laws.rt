//! A law of the runs of an output: a function that does nothing, whose contract is the law, over
//! the definitions alone.

ghost use Rattle.codespan_base.specs.declared.diagnostic.Diagnostic.{Diagnostic};
ghost use Rattle.codespan_base.specs.declared.term.config.Config.{Config};
ghost use Rattle.codespan_base.specs.FileModel.{FileDatabase};
ghost use Rattle.codespan_styled.specs.Outputs.{RunsAreUtf8};

/// States that no style mark of an output is inside a character: the text of each run is UTF-8.
pub fn runs_are_utf8<Id>()
    ensures { (config : Config) (files : FileDatabase Id) (d : Diagnostic Id)
        → RunsAreUtf8 config files d }
{}
