//! The table of the commands and their options.
ghost use Rattle.std.specs.Prelude.{◌≡◌, find, map, option_map};
ghost use Rattle.word_grammar.specs.Grammar.{is_text_of, is_name_of, is_verbed, commands, row, row_with_verb as verbed_row, row_without_verb as alone_row};
ghost use Rattle.word_grammar.specs.Shown.{row_shown, option_shown};

/// A command, with its verb where it has one.
#[derive(Clone, Copy)]
pub enum CommandName {
    /// `ukify build`.
    Build,
    /// `ukify inspect`.
    Inspect,
    /// `measure calculate`.
    Calculate,
    /// `measure image`.
    Image,
    /// `bootctl list`.
    ListEntries,
    /// `bootctl unlink`.
    Unlink,
    /// `bootctl kernel-identify`.
    Identify,
    /// `tidy`.
    Tidy,
    /// `install`.
    Install,
    /// `boot`.
    Boot,
    /// `bless good`.
    BlessGood,
    /// `bless bad`.
    BlessBad,
    /// `bless indeterminate`.
    BlessIndeterminate,
    /// `bless status`.
    BlessStatus,
    /// `loader show`.
    LoaderShow,
    /// `loader set-default`.
    LoaderDefault,
    /// `loader set-timeout`.
    LoaderTimeout,
    /// `type1 install`.
    Type1Install,
    /// `type1 cleanup`.
    Type1Cleanup,
    /// `keep`.
    Keep,
    /// `script`.
    Script,
    /// `demo`.
    Demo,
}

/// How a command takes an option.
#[derive(Clone, Copy)]
pub enum Takes {
    /// With a value, and it must be there. The last value counts.
    Required,
    /// With a value. The last one counts.
    Once,
    /// With a value. All of them count, in order.
    Repeated,
    /// Without a value.
    Flag,
}

/// What the values of an option are.
#[derive(Clone, Copy)]
pub enum ValueKind {
    /// Any text.
    Any,
    /// The name of a bank.
    Bank,
}

/// An option of a command.
#[derive(Clone, Copy)]
pub struct OptionRow {
    /// The option as it is written.
    pub text: &'static str,
    /// How the command takes it.
    pub takes: Takes,
    /// What its values are.
    pub value: ValueKind,
}

/// What a command is called and what it takes.
#[derive(Clone, Copy)]
pub struct CommandRow {
    /// The first word.
    pub name: &'static str,
    /// The second word, where the command has a verb.
    pub verb: Option<&'static str>,
    /// How many operands it takes.
    pub operands: usize,
    /// The options that it takes. Required ones are looked for in this order.
    pub options: &'static [OptionRow],
}

// An option whose values are any texts, or of the kind that is named.
macro_rules! option {
    ($text:literal, $takes:ident) => {
        option!($text, $takes, Any)
    };
    ($text:literal, $takes:ident, $value:ident) => {
        OptionRow {
            text: $text,
            takes: Takes::$takes,
            value: ValueKind::$value,
        }
    };
}

static BUILD: &[OptionRow] = &[
    option!("--stub", Required),
    option!("--linux", Required),
    option!("--output", Required),
    option!("--os-release", Once),
    option!("--cmdline", Once),
    option!("--devicetree", Once),
    option!("--uname", Once),
    option!("--splash", Once),
    option!("--pcrpkey", Once),
    option!("--initrd", Repeated),
    option!("--microcode", Once),
    option!("--section", Repeated),
    option!("--sbat", Once),
    option!("--measure", Flag),
];

static CALCULATE: &[OptionRow] = &[
    option!("--linux", Required),
    option!("--osrel", Once),
    option!("--cmdline", Once),
    option!("--initrd", Once),
    option!("--ucode", Once),
    option!("--splash", Once),
    option!("--dtb", Once),
    option!("--uname", Once),
    option!("--sbat", Once),
    option!("--pcrpkey", Once),
    option!("--bank", Repeated, Bank),
    option!("--phase", Repeated),
    option!("--json", Flag),
];

static INSPECT: &[OptionRow] = &[option!("--json", Flag)];

static IMAGE: &[OptionRow] = &[
    option!("--bank", Repeated, Bank),
    option!("--phase", Repeated),
    option!("--json", Flag),
];

static ESP: &[OptionRow] = &[option!("--esp-path", Once)];

static LIST: &[OptionRow] = &[option!("--esp-path", Once), option!("--json", Flag)];

static INSTALL: &[OptionRow] = &[option!("--tries", Once), option!("--esp-path", Once)];

static TYPE1_INSTALL: &[OptionRow] = &[
    option!("--linux", Required),
    option!("--initrd", Repeated),
    option!("--title", Once),
    option!("--version", Once),
    option!("--machine-id", Once),
    option!("--sort-key", Once),
    option!("--options", Once),
    option!("--esp-path", Once),
];

static KEEP: &[OptionRow] = &[
    option!("--per-key", Flag),
    option!("--dry-run", Flag),
    option!("--esp-path", Once),
];

static NONE: &[OptionRow] = &[];

// A command that has verbs.
fn row_with_verb(
    name: &'static str,
    verb: &'static str,
    operands: usize,
    options: &'static [OptionRow],
) -> CommandRow
    ensures { row_shown result ≡ verbed_row name.now verb.now operands (map option_shown options.now) }
{
    CommandRow {
        name,
        verb: Some(verb),
        operands,
        options,
    }
}

// A command without a verb.
fn row_without_verb(
    name: &'static str,
    operands: usize,
    options: &'static [OptionRow],
) -> CommandRow
    ensures { row_shown result ≡ alone_row name.now operands (map option_shown options.now) }
{
    CommandRow {
        name,
        verb: None,
        operands,
        options,
    }
}

impl CommandName {
    /// The table of the commands.
    pub fn row(self) -> CommandRow
        ensures { row_shown result ≡ row self }
    {
        match self {
            CommandName::Build => row_with_verb("ukify", "build", 0, BUILD),
            CommandName::Inspect => row_with_verb("ukify", "inspect", 1, INSPECT),
            CommandName::Calculate => row_with_verb("measure", "calculate", 0, CALCULATE),
            CommandName::Image => row_with_verb("measure", "image", 1, IMAGE),
            CommandName::ListEntries => row_with_verb("bootctl", "list", 0, LIST),
            CommandName::Unlink => row_with_verb("bootctl", "unlink", 1, ESP),
            CommandName::Identify => row_with_verb("bootctl", "kernel-identify", 1, NONE),
            CommandName::Tidy => row_without_verb("tidy", 0, ESP),
            CommandName::Install => row_without_verb("install", 2, INSTALL),
            CommandName::Boot => row_without_verb("boot", 0, ESP),
            CommandName::BlessGood => row_with_verb("bless", "good", 1, ESP),
            CommandName::BlessBad => row_with_verb("bless", "bad", 1, ESP),
            CommandName::BlessIndeterminate => row_with_verb("bless", "indeterminate", 1, ESP),
            CommandName::BlessStatus => row_with_verb("bless", "status", 1, ESP),
            CommandName::LoaderShow => row_with_verb("loader", "show", 0, ESP),
            CommandName::LoaderDefault => row_with_verb("loader", "set-default", 1, ESP),
            CommandName::LoaderTimeout => row_with_verb("loader", "set-timeout", 1, ESP),
            CommandName::Type1Install => row_with_verb("type1", "install", 1, TYPE1_INSTALL),
            CommandName::Type1Cleanup => row_with_verb("type1", "cleanup", 0, ESP),
            CommandName::Keep => row_without_verb("keep", 1, KEEP),
            CommandName::Script => row_without_verb("script", 0, NONE),
            CommandName::Demo => row_without_verb("demo", 2, NONE),
        }
    }
}

static COMMANDS: &[CommandName] = &[
    CommandName::Build,
    CommandName::Inspect,
    CommandName::Calculate,
    CommandName::Image,
    CommandName::ListEntries,
    CommandName::Unlink,
    CommandName::Identify,
    CommandName::Tidy,
    CommandName::Install,
    CommandName::Boot,
    CommandName::BlessGood,
    CommandName::BlessBad,
    CommandName::BlessIndeterminate,
    CommandName::BlessStatus,
    CommandName::LoaderShow,
    CommandName::LoaderDefault,
    CommandName::LoaderTimeout,
    CommandName::Type1Install,
    CommandName::Type1Cleanup,
    CommandName::Keep,
    CommandName::Script,
    CommandName::Demo,
];

impl CommandName {
    /// The first command of the table that the word names.
    pub fn from_name(word: &str) -> Option<CommandName>
        ensures { result ≡ find (is_name_of word.now) commands }
    {
        COMMANDS
            .iter()
            .copied()
            .find(|command| command.row().name == word)
    }

    /// The command with this name and verb.
    pub fn from_name_and_verb(name: &str, verb: &str) -> Option<CommandName>
        ensures { result ≡ find (is_verbed name.now verb.now) commands }
    {
        COMMANDS
            .iter()
            .copied()
            .find(|command| command.is_verbed(name, verb))
    }

    // Whether the command has this name and verb.
    fn is_verbed(self, name: &str, verb: &str) -> bool
        ensures { result ≡ is_verbed name.now verb.now self }
    {
        let row = self.row();
        match row.verb {
            Some(word) => row.name == name && word == verb,
            None => false,
        }
    }

    /// The option of the command that is written so.
    pub fn option(self, text: &str) -> Option<OptionRow>
        ensures { option_map option_shown result ≡ find (is_text_of text.now) (row self).options }
    {
        self.row()
            .options
            .iter()
            .copied()
            .find(|option| option.text == text)
    }
}
