//! What the words of a run come to.

use boot_base::{Text, TextList};
use menu_order::BlessVerb;

/// A command of the program with all that its words say. Texts are as given.
#[derive(Debug, Drop)]
pub enum Command {
    /// `script`: the commands that stand on the input, a line each.
    Script,
    /// A command of several actions, which are looked for before the first is done.
    Several(Several),
    /// A command of one action, which is its own.
    One(One),
}

/// A command of several actions.
#[derive(Debug, Drop)]
pub enum Several {
    /// `type1 install`: an entry of type 1 with its payloads.
    Type1Install(Type1Words),
    /// `type1 cleanup`: removes the payloads that no entry names.
    Type1Cleanup { esp: Text },
    /// `keep`: removes all but the first entries of the menu.
    Keep(KeepWords),
    /// `demo`: commands drawn by a seed, over a machine in memory. Its one action tells what came of them.
    Demo { seed: Text, count: Text },
}

/// A command of one action.
#[derive(Debug, Drop)]
pub enum One {
    /// `ukify build`: one image from a stub and its parts.
    Build(BuildWords),
    /// `measure calculate`: the predicted values of an image of these parts.
    Calculate(CalculateWords),
    /// `ukify inspect`: the sections of an image.
    Inspect {
        file: Text,
        json: bool,
    },
    /// `measure image`: the values that a finished image will show.
    Image {
        file: Text,
        banks: TextList,
        phases: TextList,
        json: bool,
    },
    /// `bootctl kernel-identify`: what kind of kernel a file is.
    Identify {
        file: Text,
    },
    /// `bootctl list`: the menu of the boot entries.
    List {
        esp: Text,
        json: bool,
    },
    /// `tidy`: removes what interrupted runs left.
    Tidy {
        esp: Text,
    },
    /// `boot`: counts a boot of the first entry of the menu.
    Boot {
        esp: Text,
    },
    /// `bootctl unlink`: removes an entry.
    Unlink {
        name: Text,
        esp: Text,
    },
    /// `install`: puts an image among the boot entries.
    Install {
        file: Text,
        name: Text,
        tries: Option<Text>,
        esp: Text,
    },
    /// `bless`: marks a counted entry, or says how it is marked.
    Bless {
        verb: BlessWord,
        path: Text,
        esp: Text,
    },
    /// `loader show`: which entry the boot loader takes, and how long its menu waits.
    LoaderShow {
        esp: Text,
    },
    /// `loader set-default`: another pattern for the entry that the boot loader takes.
    LoaderDefault {
        pattern: Text,
        esp: Text,
    },
    /// `loader set-timeout`: another time for the boot loader's menu to wait.
    LoaderTimeout {
        value: Text,
        esp: Text,
    },
}

/// The words of `ukify build`.
#[derive(Debug, Drop)]
pub struct BuildWords {
    /// The path of the stub.
    pub stub: Text,
    /// The path of the kernel.
    pub linux: Text,
    /// The path that the image is written to.
    pub output: Text,
    /// The other parts, each as a text or the path of the file that holds it.
    pub parts: PartWords<Given>,
    /// The paths of the initrds, in order.
    pub initrds: TextList,
    /// The values of `--section`, in order and whole, as `NAME:TEXT` or `NAME:@PATH`.
    pub sections: TextList,
    /// Whether the predicted values are printed too.
    pub measure: bool,
}

/// The words of `measure calculate`.
#[derive(Debug, Drop)]
pub struct CalculateWords {
    /// The path of the kernel.
    pub linux: Text,
    /// The path of the initrd.
    pub initrd: Option<Text>,
    /// The other parts, each as the path of its file.
    pub parts: PartWords<Text>,
    /// The names of the banks, in order.
    pub banks: TextList,
    /// The phase paths, in order.
    pub phases: TextList,
    /// Whether the values are told as JSON.
    pub json: bool,
}

/// The parts of an image that an option each gives, beside the kernel and the initrds.
#[derive(Debug, Drop)]
pub struct PartWords<T> {
    /// The os-release text.
    pub osrel: Option<T>,
    /// The kernel's command line.
    pub cmdline: Option<T>,
    /// The SBAT text.
    pub sbat: Option<T>,
    /// The device tree.
    pub dtb: Option<T>,
    /// The kernel's release, as `uname -r` prints it.
    pub uname: Option<T>,
    /// The splash picture.
    pub splash: Option<T>,
    /// The public key for PCR signatures.
    pub pcrpkey: Option<T>,
    /// The microcode.
    pub ucode: Option<T>,
}

/// The words of `type1 install`.
#[derive(Debug, Drop)]
pub struct Type1Words {
    /// The entry's name.
    pub name: Text,
    /// The path of the kernel.
    pub linux: Text,
    /// The paths of the initrds, in order.
    pub initrds: TextList,
    /// What the entry says besides.
    pub texts: EntryTexts,
    /// The folder of the boot files.
    pub esp: Text,
}

/// The texts of an entry that names payloads, each as it is given.
#[derive(Debug, Drop)]
pub struct EntryTexts {
    /// The title that is shown.
    pub title: Option<Text>,
    /// The version.
    pub version: Option<Text>,
    /// The machine identifier.
    pub machine_id: Option<Text>,
    /// What entries are ordered by.
    pub sort_key: Option<Text>,
    /// The command line.
    pub options: Option<Text>,
}

/// The words of `keep`.
#[derive(Debug, Drop)]
pub struct KeepWords {
    /// How many entries are kept.
    pub number: Text,
    /// Whether so many of each sort-key are kept.
    pub per_key: bool,
    /// Whether it is only told what would go.
    pub dry_run: bool,
    /// The folder of the boot files.
    pub esp: Text,
}

/// A text, or the path of the file that holds it.
#[derive(Debug, Drop)]
pub enum Given {
    /// The text itself.
    Inline(Text),
    /// The path, which followed a leading `@`.
    File(Text),
}

/// What `bless` is asked for.
#[derive(Clone, Copy, Debug, PartialEq, Eq)]
pub enum BlessWord {
    /// Mark the entry so.
    Mark(BlessVerb),
    /// Only say how it is marked.
    Status,
}
