//! Edges of a few nodes, whose rows were worked out by hand.

use crate::tests::courses::course;
use std::test::Fail;

const CUSTOMERS: &[u8] =
    b"id,city:str,vip:bool\r\n10,Los Angeles,true\r\n20,\"San Jose, CA\",false\r\n30,Reno,\r\n40,Los Angeles,True\r\n";

const CALLS: &[u8] =
    b"src,dst,duration:int,year:int\r\n10,20,7,2010\r\n20,30,12,2015\r\n10,40,34,2019\r\n40,10,1,2019\r\n";

// By city, with the sum of the durations: the calls up to 2010, up to 2015 and up to 2019 that take 5 at least, and those
// within Los Angeles.
#[test]
fn calls_by_city(rt: HostRuntime) -> Result<(), Fail> {
    let text = course(rt.alloc(), CUSTOMERS, CALLS, Some(0), 4, b"+a/+b/+c/-ab")?;
    assert_eq!(rt;
        text.as_str(),
        " 'Los Angeles','San Jose, CA',1,7\n 'Los Angeles','San Jose, CA',1,7 'San Jose, CA','Reno',1,12\n 'Los Angeles','Los Angeles',1,34 'Los Angeles','San Jose, CA',1,7 'San Jose, CA','Reno',1,12\n 'Los Angeles','Los Angeles',1,34\n"
    );
    Ok(())
}

const WITH_ABSENT: &[u8] = b"id,g:int\n1,\n2,5\n3,-1\n";

const BETWEEN_THEM: &[u8] = b"src,dst\n1,2\n1,2\n2,1\n3,3\n3,1\n";

// An absent cell is a group of its own, and the least. Where no numbers are summed, each sum is 0.
#[test]
fn absent_cells_are_a_group(rt: HostRuntime) -> Result<(), Fail> {
    let text = course(rt.alloc(), WITH_ABSENT, BETWEEN_THEM, None, 2, b"+ab/+cde")?;
    assert_eq!(rt;
        text.as_str(),
        " -,5,2,0\n -,5,2,0 -1,-,1,0 -1,-1,1,0 5,-,1,0\n"
    );
    Ok(())
}

const TRUTHS: &[u8] = b"id,b:bool\n1,true\n2,false\n3,\n";

const GREAT_NUMBERS: &[u8] =
    b"src,dst,w:int\n1,2,9223372036854775807\n1,2,9223372036854775807\n1,2,9223372036854775807\n2,1,-9223372036854775807\n2,1,-9223372036854775807\n2,1,-9223372036854775807\n3,1,\n3,1,4\n2,2,0\n";

// False comes before true; the sums pass the range of 64 bits on both sides; an absent number adds nothing.
#[test]
fn sums_beyond_64_bits(rt: HostRuntime) -> Result<(), Fail> {
    let text = course(
        rt.alloc(),
        TRUTHS,
        GREAT_NUMBERS,
        Some(0),
        2,
        b"+abcdefgi/+h-a",
    )?;
    assert_eq!(rt;
        text.as_str(),
        " -,true,1,0 false,false,1,0 false,true,3,-27670116110564327421 true,false,3,27670116110564327421\n -,true,2,4 false,false,1,0 false,true,3,-27670116110564327421 true,false,2,18446744073709551614\n"
    );
    Ok(())
}

const TWO: &[u8] = b"id,g:str\n1,b\n2,a\n";

const TO_AND_FRO: &[u8] = b"src,dst,w:int\n1,2,3\n1,2,-4\n2,1,5\n";

// Edges come, go and come again; a list may be empty, and let one edge come and go; what is no change is left out.
#[test]
fn edges_come_again(rt: HostRuntime) -> Result<(), Fail> {
    let turns = b"+ab/-ab//+c-c/+b/+b/+d/-b+cb";
    let text = course(rt.alloc(), TWO, TO_AND_FRO, Some(0), 8, turns)?;
    assert_eq!(rt;
        text.as_str(),
        " 'b','a',2,-1\n\n\n\n 'b','a',1,-4\nno changes 'b','a',1,-4\nno changes 'b','a',1,-4\n 'a','b',1,5 'b','a',1,-4\n"
    );
    Ok(())
}
