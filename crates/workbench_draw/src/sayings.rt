// What each fault means and what to do about it, in words.
use blue_check::fault::CheckFault;
use blue_words::fault::BlueKind;
use stream_model::kind::Kind;

/// What a fault means, and what to do about it.
#[derive(Clone, Copy)]
pub struct Saying {
    /// What is wrong.
    pub means: &'static [u8],
    /// What to do.
    pub advice: &'static [u8],
}

/// What a fault of a text means.
pub fn of_text(kind: BlueKind) -> Saying {
    match kind {
        BlueKind::BadVersion => Saying {
            means: b"The first line that says something is not the version line.",
            advice: b"Begin the blueprint with the line `streams 2`, or `streams 1` where it has no modules.",
        },
        BlueKind::BadLine => Saying {
            means: b"The line has not the form of a declaration, or may not stand there: a word is unknown, missing or too many, a byte is none of a word, or a module has no end.",
            advice: b"Compare it with the forms of switch, chain, source, stage, sink and wire; switches, chains, modules and the one default stand outside of modules, and in, out and end inside.",
        },
        BlueKind::BadName => Saying {
            means: b"Where a name or the name of a file is to stand is a word that is none.",
            advice: b"A name has a lower-case letter and up to 31 lower-case letters, digits and `_`; that of a file a letter or a digit and up to 63 letters, digits, `.`, `_` and `-`.",
        },
        BlueKind::BadNumber => Saying {
            means: b"Where a number is to stand is a word that is none, or one out of its range.",
            advice: b"Write 1 to 20 digits; a port and a size are below 2 to the power of 32.",
        },
        BlueKind::TooLong => Saying {
            means: b"The text has more than 1048576 bytes, or the line more than 1024.",
            advice: b"Make it shorter.",
        },
        BlueKind::TooMany => Saying {
            means: b"More is declared than the limits allow.",
            advice: b"A text has at most 1024 nodes, 2048 wires, 64 switches, 256 chains, 64 modules and 256 uses, a chain at most 32 steps, and a module at most 64 ports.",
        },
    }
}

/// What a fault of names means, or of what names stand for.
fn of_names(fault: &CheckFault) -> Option<Saying> {
    match fault {
        CheckFault::TwoNames(_) => Some(Saying {
            means: b"The name is declared twice, or the file is wanted twice.",
            advice: b"Give one of the two another name; to use what comes of a file twice, send it through a broadcast.",
        }),
        CheckFault::NoSuchName(_) => Some(Saying {
            means: b"The name is used and not declared.",
            advice: b"Declare it, or mend its spelling.",
        }),
        CheckFault::NoSuchPlug(_) => Some(Saying {
            means: b"`streams` has no plug or custom stage of this name.",
            advice: b"It has the plugs `dedup` and `pairsum` and the custom stages `alternate` and `rude`. Use one of them, a stage of the language, or a program that hands it in.",
        }),
        CheckFault::PlugTwice(_) => Some(Saying {
            means: b"Two plugs or two custom stages have this name, or two stages name it.",
            advice: b"Name each plug and each custom stage once.",
        }),
        _ => None,
    }
}

/// What it means that a stage of this kind names what is not declared: a switch, or else a chain.
pub(crate) fn of_missing(kind: &Kind) -> Saying {
    match kind {
        Kind::Valve(_) | Kind::TripShutdown(_, _) | Kind::TripAbort(_, _) => Saying {
            means: b"No switch of this name is declared.",
            advice: b"Declare it by a line `switch NAME`, or mend its spelling.",
        },
        _ => Saying {
            means: b"No chain of this name is declared.",
            advice: b"Declare it by a line `chain NAME STEP`, or mend its spelling.",
        },
    }
}

/// What a fault of modules means.
fn of_modules(fault: &CheckFault) -> Option<Saying> {
    match fault {
        CheckFault::NoSuchModule(_) => Some(Saying {
            means: b"No module of this name is declared before.",
            advice: b"Declare it, mend its spelling, or put its module before the one that uses it.",
        }),
        CheckFault::PortName(_, _) => Some(Saying {
            means: b"The module has two ports of one direction and name, or there is no such port in that direction.",
            advice: b"The port of a node is a number, and that of an instance a name of its module: an `out` where a wire begins, an `in` where it ends.",
        }),
        CheckFault::TooLarge => Some(Saying {
            means: b"With each instance in place of its use there would be more than 1024 nodes or 2048 wires.",
            advice: b"Use modules less often, or make them smaller.",
        }),
        _ => None,
    }
}

/// What a fault of ports means.
fn of_ports(fault: &CheckFault) -> Option<Saying> {
    match fault {
        CheckFault::NoSuchPort(_) => Some(Saying {
            means: b"The wire uses an output or an input that its node does not have.",
            advice: b"Outputs and inputs are numbered from 0; a fan has as many as its number says.",
        }),
        CheckFault::PortTwice(_) => Some(Saying {
            means: b"The wire uses an output or an input that an earlier wire uses.",
            advice: b"Each port has one wire: send to several by a broadcast, and take from several by a merge.",
        }),
        CheckFault::PortOpen(_, _, _) => Some(Saying {
            means: b"This output or input of the node has no wire.",
            advice: b"Add a wire there; for an output that is not wanted one to a sink `ignore`.",
        }),
        _ => None,
    }
}

/// What a fault of a blueprint means: the rule that it breaks.
pub fn of_rule(fault: &CheckFault) -> Saying {
    if let Some(saying) = of_names(fault) {
        return saying;
    }
    if let Some(saying) = of_modules(fault) {
        return saying;
    }
    if let Some(saying) = of_ports(fault) {
        return saying;
    }
    match fault {
        CheckFault::TypeClash(_, _, _) => Saying {
            means: b"The type that arrives, the first of the two, is not what is wanted there, the second.",
            advice: b"Put a stage in between that gives what is wanted, as `map num` or `map show`.",
        },
        CheckFault::TooDeep(_) => Saying {
            means: b"A type would nest deeper here than 4 lists and pairs.",
            advice: b"Take lists and pairs apart before, as by `map_concat flat`, `map first` or `unzip`.",
        },
        CheckFault::HubWire(_) => Saying {
            means: b"A wire into a merge hub or out of a broadcast hub is a lane of the hub: it is not marked `async`, and does not go from a broadcast hub to a merge hub.",
            advice: b"Take `async` off the wire; behind a broadcast hub and before a merge hub put a stage, as `buffer 1 backpressure`.",
        },
        CheckFault::ClosedWalk(_) => Saying {
            means: b"The wire lies on a closed walk: elements would come back to where they were.",
            advice: b"Take a wire of that walk out.",
        },
        _ => Saying {
            means: b"A size is out of its limits.",
            advice: b"Groups and buffers hold 1 to 4096, a fan has 2 to 64 ports, a hub 1 to 64 and lanes of 1 to 1024, a segment and a trip 1 to 4000000000, a group_by 1 to 1024 keys; a lane is a power of two up to 1024.",
        },
    }
}
