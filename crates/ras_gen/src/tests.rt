//! Whole texts and parts of long ones, worked out by another program, and that the call succeeds.
use crate::{MAX_SEED, MAX_SIZE, workload_text};
use std::test::Fail;

/// How many bytes stand above the sessions.
const OPENING: usize = 182;

/// The text of the seed 7 and the size 1.
const SMALL: &[u8] = b"#rasq workload 1\n\
    #types\n\
    type GreySet = char [*:*,*:*] tiles [0:3,0:3];\n\
    #setup\n\
    create collection G GreySet;\n\
    insert into G values marray p in [0:15,0:15] values mod(16*p[0]+p[1],256);\n\
    #session s1\n\
    begin retry 8;\n\
    update G as a set a[4:5,11:12] assign marray p in [4:5,11:12] values 116;\n\
    select add_cells(a[4:5,11:12]) from G as a;\n\
    commit;\n\
    #session s2\n\
    begin retry 8;\n\
    update G as a set a[9:10,11:12] assign marray p in [9:10,11:12] values 37;\n\
    select add_cells(a[9:10,11:12]) from G as a;\n\
    commit;\n\
    #session s3\n\
    begin retry 8;\n\
    update G as a set a[9:10,5:6] assign marray p in [9:10,5:6] values 49;\n\
    select add_cells(a[9:10,5:6]) from G as a;\n\
    commit;\n\
    #session s4\n\
    begin retry 8;\n\
    update G as a set a[8:9,8:9] assign marray p in [8:9,8:9] values 19;\n\
    select add_cells(a[8:9,8:9]) from G as a;\n\
    commit;\n\
    #session s5\n\
    begin retry 8;\n\
    update G as a set a[5:6,14:15] assign marray p in [5:6,14:15] values 237;\n\
    select add_cells(a[5:6,14:15]) from G as a;\n\
    commit;\n\
    #session s6\n\
    begin retry 8;\n\
    update G as a set a[7:8,10:11] assign marray p in [7:8,10:11] values 102;\n\
    select add_cells(a[7:8,10:11]) from G as a;\n\
    commit;\n\
    #session s7\n\
    begin retry 8;\n\
    update G as a set a[10:11,5:6] assign marray p in [10:11,5:6] values 252;\n\
    select add_cells(a[10:11,5:6]) from G as a;\n\
    commit;\n\
    #session s8\n\
    begin retry 8;\n\
    update G as a set a[2:3,9:10] assign marray p in [2:3,9:10] values 218;\n\
    select add_cells(a[2:3,9:10]) from G as a;\n\
    commit;\n\
    #end\n";

#[test]
fn a_small_text_is_written_whole(rt: HostRuntime) -> Result<(), Fail> {
    let text = workload_text(rt.alloc(), 7, 1)?;
    assert_eq!(rt; text.as_slice(), SMALL);
    Ok(())
}

/// A seed and a size, how many bytes their text has, and what it begins its sessions and ends with.
type Case<'a> = (u32, u32, usize, &'a [u8], &'a [u8]);

#[test]
fn texts_begin_and_end_as_worked_out(rt: HostRuntime) -> Result<(), Fail> {
    let cases: [Case<'_>; 5] = [
        (
            7,
            8,
            9_229,
            b"#session s1\n\
            begin retry 8;\n\
            update G as a set a[4:5,11:12] assign marray p in [4:5,11:12] values 116;\n\
            select add_cells(a[4:5,11:12]) from G as a;\n\
            commit;\nbegin retry 8;\n",
            b"update G as a set a[8:9,0:1] assign marray p in [8:9,0:1] values 94;\n\
            select add_cells(a[8:9,0:1]) from G as a;\n\
            commit;\n#end\n",
        ),
        (
            7,
            2,
            2_521,
            b"#session s1\n\
            begin retry 8;\n\
            update G as a set a[4:5,11:12] assign marray p in [4:5,11:12] values 116;\n\
            select add_cells(a[4:5,11:12]) from G as a;\n\
            commit;\n\
            begin retry 8;\n\
            update G as a set a[9:10,11:12] assign marray p in [9:10,11:12] values 37;\n\
            select add_cells(a[9:10,11:12]) from G as a;\n\
            commit;\n\
            #session s2\n\
            begin retry 8;\n\
            update G as a set a[9:10,5:6] assign marray p in [9:10,5:6] values 49;\n",
            b"update G as a set a[6:7,11:12] assign marray p in [6:7,11:12] values 192;\n\
            select add_cells(a[6:7,11:12]) from G as a;\n\
            commit;\n#end\n",
        ),
        (
            0,
            1,
            1_381,
            b"#session s1\n\
            begin retry 8;\n\
            update G as a set a[0:1,3:4] assign marray p in [0:1,3:4] values 4;\n",
            b"update G as a set a[1:2,10:11] assign marray p in [1:2,10:11] values 175;\n\
            select add_cells(a[1:2,10:11]) from G as a;\n\
            commit;\n#end\n",
        ),
        (
            MAX_SEED,
            1,
            1_398,
            b"#session s1\n\
            begin retry 8;\n\
            update G as a set a[14:15,14:15] assign marray p in [14:15,14:15] values 134;\n",
            b"update G as a set a[4:5,14:15] assign marray p in [4:5,14:15] values 22;\n\
            select add_cells(a[4:5,14:15]) from G as a;\n\
            commit;\n#end\n",
        ),
        (
            1,
            MAX_SIZE,
            1_111_561,
            b"#session s1\n\
            begin retry 8;\n\
            update G as a set a[8:9,13:14] assign marray p in [8:9,13:14] values 129;\n",
            b"update G as a set a[10:11,6:7] assign marray p in [10:11,6:7] values 122;\n\
            select add_cells(a[10:11,6:7]) from G as a;\n\
            commit;\n#end\n",
        ),
    ];
    for (seed, size, length, begins, ends) in cases {
        assert!(rt; seed <= MAX_SEED && 1 <= size && size <= MAX_SIZE);
        let text = workload_text(rt.alloc(), seed, size)?;
        let text = text.as_slice();
        assert_eq!(rt; text.len(), length, "of {seed} and {size}");
        assert!(rt; text.len() > OPENING, "of {seed} and {size}");
        assert!(rt; text[OPENING..].starts_with(begins), "of {seed} and {size}");
        assert!(rt; text.ends_with(ends), "of {seed} and {size}");
    }
    Ok(())
}
