use ras_cells::{Atom, CellType};
use ras_workload::{Outline, WorkloadFault, read_outline};
use std::alloc::AllocError;
use std::process::Abort;
use std::test::Fail;

/// The place behind the last heading, or the fault.
type Told = Result<usize, WorkloadFault>;

const TITLE: &[u8] = b"#rasq workload 1\n";

/// The texts one behind the other.
fn joined(rt: &impl AllocGlobal, parts: &[&[u8]]) -> Result<Vec<u8>, AllocError> {
    let mut text = Vec::new(rt.alloc());
    for part in parts {
        text.extend_from_slice(part)?;
    }
    Ok(text)
}

fn told(rt: &(impl Abort + AllocGlobal), text: &[u8]) -> Told {
    assert!(rt; text.len() < 4_294_967_296);
    let (_, behind) = read_outline(rt.alloc(), text)?;
    Ok(behind)
}

fn heading(line: u64) -> Told {
    Err(WorkloadFault::BadHeading { line })
}

const NO_END: Told = Err(WorkloadFault::NoEnd);

#[test]
fn headings_are_judged_in_order(rt: HostRuntime) -> Result<(), Fail> {
    let table: [(&[u8], Told); 18] = [
        (b"#end", Ok(21)),
        (b"#end\n#rasq report 1\n", Ok(22)),
        (b"-- nothing\n\n#end \t\n#", Ok(36)),
        (b"#types\n#setup\n#session A\n#session a\n#end", Ok(57)),
        (b"", NO_END),
        (b"#setup\ndrop collection G", NO_END),
        (b"#types\ntype A = wide", NO_END),
        (b"#type\n#end\n", heading(2)),
        (b"#types\n#types\n#end\n", heading(3)),
        (b"#setup\n#types\n#end\n", heading(3)),
        (b"#session A\n#setup\n#end\n", heading(3)),
        (b"#session\n#end\n", heading(2)),
        (b"#session  A\n#end\n", heading(2)),
        (b"#session Select\n#end\n", heading(2)),
        (b"#session A\n#session a\n#session A\n#end\n", heading(4)),
        (b"\n -- c\n ;\n#end\n", heading(4)),
        (b"#setup\n-- ;\ndrop collection G\n#end\n", heading(5)),
        (b"#types\ntype A = wide\n#end\n", heading(4)),
    ];
    for (rest, want) in table {
        let text = joined(&rt, &[TITLE, rest])?;
        assert_eq!(rt; told(&rt, &text), want, "{rest:?}");
    }
    let table: [(&[u8], Told); 4] = [
        (b"", heading(1)),
        (b"#rasq workload 2\n#end\n", heading(1)),
        (b"\n#rasq workload 1\n#end\n", heading(1)),
        (b"#rasq workload 1 \t\r\n#end", Ok(24)),
    ];
    for (text, want) in table {
        assert_eq!(rt; told(&rt, text), want, "{text:?}");
    }
    Ok(())
}

#[test]
fn type_lines_are_judged(rt: HostRuntime) -> Result<(), Fail> {
    let good: [&[u8]; 8] = [
        b"type A = char [*:*]",
        b"type A = unsigned short [-5:5, 0:*] tiles [0:255, 0:255] null [1, 3:4c]",
        b"type Type = {tile: bool, b: boolean} [-2147483648:2147483647]",
        b"-- of one\n type a=octet[*:*,*:*,*:*,*:*,*:*,*:*]",
        b"type A = short [1:1] null [-32768:-1,0:32767]",
        b"type A = long [*:*] tiles [0:65535]",
        b"type A = ulong [*:*] null [1,2,3,4,5,6,7,8]",
        b"type A = {a:bool,b:bool,c:bool,d:bool,e:bool,f:bool,g:bool,h:bool} [*:*]",
    ];
    for line in good {
        let text = joined(&rt, &[TITLE, b"#types\n", line, b";\n#end"])?;
        assert_eq!(rt; told(&rt, &text), Ok(text.len()), "{line:?}");
    }
    let wrong: [&[u8]; 33] = [
        b"",
        b"typ A = char [*:*]",
        b"Type A = char [*:*]",
        b"type null = char [*:*]",
        b"type min = char [*:*]",
        b"type A = grey [*:*]",
        b"type A = char",
        b"type A = char []",
        b"type A = char [1]",
        b"type A = char [1:2:3]",
        b"type A = char [*:*] tiles [1:2]",
        b"type A = char [*:*] tiles [00:2]",
        b"type A = char [*:*] tiles [0c:2]",
        b"type A = char [*:*] null [0] tiles [0:1]",
        b"type A = char [*:*] null []",
        b"type A = char [*:*] 1",
        b"type A = float [*:*]",
        b"type A = char [300c:*]",
        b"type A = wide [*:*]",
        b"type A = {r: wide} [*:*]",
        b"type A = {r: char, r: octet} [*:*]",
        b"type A = {tiles: char} [*:*]",
        b"type A = {a:bool,b:bool,c:bool,d:bool,e:bool,f:bool,g:bool,h:bool,i:bool} [*:*]",
        b"type A = {r: char} [*:*] null [0]",
        b"type A = char [*:2147483648]",
        b"type A = char [-2147483649:*]",
        b"type A = char [1:0]",
        b"type A = char [*:*,*:*,*:*,*:*,*:*,*:*,*:*]",
        b"type A = char [*:*] tiles [0:1,0:1]",
        b"type A = char [*:*] tiles [0:65536]",
        b"type A = char [*:*] null [256]",
        b"type A = char [*:*] null [2:1]",
        b"type A = char [*:*] null [1:2,2:3]",
    ];
    for line in wrong {
        let text = joined(&rt, &[TITLE, b"#types\n\n", line, b";\n#end"])?;
        let want = Err(WorkloadFault::BadType { line: 4 });
        assert_eq!(rt; told(&rt, &text), want, "{line:?}");
    }
    Ok(())
}

#[test]
fn types_of_one_name_are_refused(rt: HostRuntime) -> Result<(), Fail> {
    let lines = b"#types\ntype A = char [*:*];\n -- again\n type A = char [*:*];\n#end";
    let text = joined(&rt, &[TITLE, lines])?;
    assert_eq!(rt; told(&rt, &text), Err(WorkloadFault::BadType { line: 5 }));
    Ok(())
}

/// So many sessions s0, s1, .. without statements.
fn sessions(rt: &impl AllocGlobal, count: usize) -> Result<Vec<u8>, AllocError> {
    let mut text = Vec::from_slice(rt.alloc(), TITLE)?;
    for number in 0..count {
        let heading = format!(in rt.alloc(); "#session s{number}\n")?;
        text.extend_from_slice(heading.as_bytes())?;
    }
    text.extend_from_slice(b"#end\n")?;
    Ok(text)
}

/// So many empty statements on line 3, and more behind them.
fn statements(rt: &impl AllocGlobal, count: usize, more: &[u8]) -> Result<Vec<u8>, AllocError> {
    let mut text = joined(rt, &[TITLE, b"#session A\n"])?;
    for _ in 0..count {
        text.push(b';')?;
    }
    text.extend_from_slice(more)?;
    Ok(text)
}

#[test]
fn limits_are_kept(rt: HostRuntime) -> Result<(), Fail> {
    let text = sessions(&rt, 64)?;
    assert_eq!(rt; told(&rt, &text), Ok(text.len()));
    let text = sessions(&rt, 65)?;
    assert_eq!(rt;
        told(&rt, &text),
        Err(WorkloadFault::TooManySessions { line: 66 })
    );
    let text = statements(&rt, 10_000, b"\n#end\n")?;
    assert_eq!(rt; told(&rt, &text), Ok(text.len()));
    let text = statements(&rt, 10_001, b"\n#end\n")?;
    assert_eq!(rt;
        told(&rt, &text),
        Err(WorkloadFault::TooManyStatements { line: 3 })
    );
    // It is one too many as soon as it begins.
    let text = statements(&rt, 10_000, b"\n-- c\nx")?;
    assert_eq!(rt;
        told(&rt, &text),
        Err(WorkloadFault::TooManyStatements { line: 5 })
    );
    Ok(())
}

#[test]
fn a_small_workload_is_cut(rt: HostRuntime) {
    let text = b"#rasq workload 1\n#setup\n;\n#end\n";
    for len in 0..text.len() + 1 {
        let want = match len {
            0..=15 => heading(1),
            16..=17 | 23..=26 => NO_END,
            18..=22 => heading(2),
            27..=29 => heading(4),
            _ => Ok(len),
        };
        assert_eq!(rt; told(&rt, &text[..len]), want, "{len}");
    }
}

const BASE: &[u8] = b"#rasq workload 1
#types
type GreySet = char [*:*,*:*] tiles [0:1,0:1];
type NilSet = char [*:*] tiles [0:1] null [0:0];
type RgbSet = {red: char, green: char, blue: char} [*:*];
#setup
create collection G GreySet;
insert into G values marray p in [0:3,0:3] values 4*p[0]+p[1];
create collection N NilSet;
insert into N values marray p in [0:3] values 0;
create collection R RgbSet;
insert into R values marray p in [0:1] values {p[0], 10, 20};
#session A
select a[1:2,0] from G as a;
#end
";

fn base(rt: &(impl Abort + AllocGlobal)) -> Result<(Outline, usize), WorkloadFault> {
    assert!(rt; BASE.len() < 4_294_967_296);
    read_outline(rt.alloc(), BASE)
}

#[test]
fn the_base_workload_is_read(rt: HostRuntime) {
    let (outline, behind) = base(&rt).expect(&rt, "an outline");
    assert_eq!(rt; behind, 489);
    assert_eq!(rt; outline.types.len(), 3);
    let grey = outline.types.get(0);
    assert_eq!(rt; grey.name.bytes(), b"GreySet".as_slice());
    assert_eq!(rt; grey.cell, CellType::Atom(Atom::Char));
    assert_eq!(rt; grey.extents.as_slice(), [2, 2].as_slice());
    assert_eq!(rt; grey.bounds.len(), 2);
    assert_eq!(rt; grey.bounds[1].lo, -2_147_483_648);
    assert_eq!(rt; outline.types.get(1).nulls.as_slice(), [(0, 0)].as_slice());
    let colours = outline.types.get(2);
    assert_eq!(rt; colours.extents.as_slice(), [4096].as_slice());
    assert_eq!(rt; colours.names.as_slice().len(), 3);
    assert_eq!(rt; colours.names.as_slice()[1].bytes(), b"green".as_slice());
    let setup = outline.setup.as_slice();
    assert_eq!(rt; setup.len(), 6);
    assert_eq!(rt;
        setup[3].bytes(),
        b"insert into N values marray p in [0:3] values 0".as_slice()
    );
    let scripts = outline.scripts.as_slice();
    assert_eq!(rt; scripts.len(), 1);
    assert_eq!(rt; scripts[0].name.bytes(), b"A".as_slice());
    let statements = scripts[0].statements.as_slice();
    assert_eq!(rt; statements.len(), 1);
    assert_eq!(rt;
        statements[0].bytes(),
        b"select a[1:2,0] from G as a".as_slice()
    );
}
