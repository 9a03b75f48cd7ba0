//! What the arguments request.

ghost use Rattle.std.specs.Prelude.{◌≡◌, map, string_bytes};
ghost use Rattle.std.specs.Option.{option_map};
ghost use Rattle.gallery_cases.specs.Requests.{format_named};

/// The format of a document.
#[derive(Clone, Copy)]
pub enum Format {
    /// An SVG document, in the default styles.
    Svg,
    /// An HTML element.
    Html,
    /// Text that is safe to print on a terminal, in the default styles.
    Terminal,
}

impl Format {
    /// Parses the name of a format: `svg`, `html` or `terminal`. Returns `None` for any other text.
    pub fn parse(name: &str) -> Option<Format>
        ensures { result ≡ format_named name.now }
    {
        match name {
            "svg" => Some(Format::Svg),
            "html" => Some(Format::Html),
            "terminal" => Some(Format::Terminal),
            _ => None,
        }
    }
}

/// What a run writes.
#[derive(Clone, Copy)]
pub enum Request<'args> {
    /// The output of every case.
    All,
    /// `styles`: the style sheet of HTML elements.
    Styles,
    /// `svg NAME`, `html NAME` or `terminal NAME`: the first case with this name, in a format.
    Document(Format, &'args str),
}

impl<'args> Request<'args> {
    ghost use Rattle.gallery_cases.specs.Requests.{gallery_request_of, gallery_request_view};

    /// Parses the arguments: none, `styles`, or a format and the name of a case. Returns `None` for
    /// any others.
    pub fn from_arguments(args: &'args [String]) -> Option<Request<'args>>
        ensures { option_map gallery_request_view result
            ≡ gallery_request_of (map string_bytes args.now) }
    {
        match args {
            [] => Some(Request::All),
            [arg] if arg.as_str() == "styles" => Some(Request::Styles),
            [format, name] => Some(Request::Document(
                Format::parse(format.as_str())?,
                name.as_str(),
            )),
            _ => None,
        }
    }
}
