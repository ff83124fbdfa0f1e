use bl_cover::CutKinds;
use bl_gen::make;
use bl_journal::{Order, Settings};
use bl_problem::Sense;
use bl_words::{GenWish, Wish, WordsFault, read_words};
use std::alloc::{AllocError, Global};
use std::test::Fail;

/// The words of a list.
fn words_of(alloc: Global, list: &[&str]) -> Result<Vec<String>, AllocError> {
    let mut words = Vec::new(alloc);
    for word in list {
        words.push(String::from_str(alloc, word)?)?;
    }
    Ok(words)
}

/// What no words ask for.
const PLAIN: Wish = Wish {
    workers: 1,
    settings: Settings {
        nodes: 20_000,
        span: 8,
        order: Order::Best,
        gap: 0,
    },
    half: false,
    gap: 0,
    cuts: CutKinds::Both,
    generate: None,
    write: false,
    log: false,
};

#[test]
fn words_ask_for_wishes(rt: HostRuntime) -> Result<(), Fail> {
    let alloc = rt.alloc();
    let seven = Wish {
        settings: Settings {
            nodes: 7,
            ..PLAIN.settings
        },
        ..PLAIN
    };
    let many = Wish {
        workers: 64,
        settings: Settings {
            order: Order::Depth,
            ..PLAIN.settings
        },
        half: true,
        gap: 1_000_000_000,
        cuts: CutKinds::Covers,
        generate: Some(GenWish {
            start: 1,
            columns: 30,
            rows: 0,
        }),
        write: false,
        log: true,
    };
    let most = Wish {
        workers: 1,
        settings: Settings {
            nodes: 100_000,
            span: 64,
            order: Order::Best,
            gap: 0,
        },
        half: false,
        gap: 0,
        cuts: CutKinds::Rows,
        generate: Some(GenWish {
            start: 2_147_483_647,
            columns: 1_000,
            rows: 1_000,
        }),
        write: true,
        log: false,
    };
    let rows: [(&[&str], bool, Wish); 7] = [
        (&[], true, PLAIN),
        (&[], false, PLAIN),
        (&["--cuts", "both"], true, PLAIN),
        (&["--nodes=007"], true, seven),
        (&["--nodes", "0000000007"], false, seven),
        (
            &[
                "--order",
                "depth",
                "--workers",
                "64",
                "--gen",
                "1",
                "--rows=0",
                "--branch=half",
                "--gap=1000000000",
                "--cuts=covers",
                "--log",
            ],
            false,
            many,
        ),
        (
            &[
                "--columns=1000",
                "--branch",
                "fraction",
                "--rows",
                "1000",
                "--gen=2147483647",
                "--order=best",
                "--span",
                "64",
                "--cuts",
                "rows",
                "--write",
                "--nodes",
                "100000",
            ],
            true,
            most,
        ),
    ];
    for (list, one, wish) in rows {
        assert!(rt; read_words(alloc, &words_of(alloc, list)?, one) == Ok(wish));
    }
    Ok(())
}

#[test]
fn other_words_are_refused(rt: HostRuntime) -> Result<(), Fail> {
    let alloc = rt.alloc();
    let rows: [&[&str]; 36] = [
        // no options, or no such ones
        &["x"],
        &[""],
        &["-"],
        &["--"],
        &["--nodes", "--"],
        &["-h"],
        &["--help"],
        &["--version"],
        &["--speed", "1"],
        &["--node", "1"],
        // a flag has no value, and stands once
        &["--write=1"],
        &["--write", "--write"],
        &["--log=1"],
        &["--log", "--log"],
        &["--log", "--write"],
        // parts that are not built
        &["--save"],
        &["--hubs", "2"],
        // values out of range, or none
        &["--nodes"],
        &["--nodes="],
        &["--nodes", "x"],
        &["--nodes", "-5"],
        &["--nodes", "+5"],
        &["--nodes", "100001"],
        &["--nodes=00000000007"],
        &["--gap", "1000000001"],
        &["--span", "0"],
        &["--span", "65"],
        &["--order", "Best"],
        &["--branch=middle"],
        &["--cuts", "none"],
        &["--gen", "2147483648"],
        &["--gen", "1", "--columns", "0"],
        &["--gen", "1", "--rows", "1001"],
        // twice, and sizes without a start
        &["--nodes", "1", "--nodes", "1"],
        &["--columns", "3"],
        &["--rows", "3"],
    ];
    for list in rows {
        let words = words_of(alloc, list)?;
        assert!(rt; read_words(alloc, &words, true) == Err(WordsFault::Refused));
        assert!(rt; read_words(alloc, &words, false) == Err(WordsFault::Refused));
    }
    // the program without workers has no such option
    for (list, one) in [
        (&["--workers", "2"], true),
        (&["--workers", "0"], false),
        (&["--workers", "65"], false),
    ] {
        let words = words_of(alloc, list.as_slice())?;
        assert!(rt; read_words(alloc, &words, one) == Err(WordsFault::Refused));
    }
    for (fault, name) in [
        (WordsFault::Refused, "Refused"),
        (WordsFault::Memory, "Memory"),
    ] {
        let text = format!(in alloc; "{fault}")?;
        assert!(rt; text.as_str() == name);
    }
    Ok(())
}

#[test]
fn problems_are_made_from_numbers(rt: HostRuntime) -> Result<(), Fail> {
    let problem = make(rt.alloc(), 1, 2, 1)?;
    assert!(rt; problem.objective().bytes() == b"COST".as_slice());
    assert!(rt; problem.scale() == 0 && problem.offset() == 0 && problem.sense() == Sense::Min);
    let columns = problem.columns();
    assert_eq!(rt; columns.len(), 2);
    assert!(rt; columns[0].low == 0 && columns[0].high == 1 && columns[0].cost == -39);
    assert!(rt; columns[0].name.bytes() == b"C0001".as_slice());
    assert!(rt; columns[1].low == 0 && columns[1].high == 1 && columns[1].cost == -59);
    assert!(rt; columns[1].name.bytes() == b"C0002".as_slice());
    let rows = problem.rows();
    assert_eq!(rt; rows.len(), 1);
    assert!(rt; rows[0].name.bytes() == b"R0001".as_slice());
    assert!(rt; rows[0].low.is_none() && rows[0].high == Some(4));
    let terms = rows[0].terms.as_slice();
    assert_eq!(rt; terms.len(), 2);
    assert!(rt; terms[0].column == 0 && terms[0].coefficient == 3);
    assert!(rt; terms[1].column == 1 && terms[1].coefficient == 5);
    Ok(())
}
