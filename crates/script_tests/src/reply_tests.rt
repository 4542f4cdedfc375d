// The least number that there may be, which no file has, is printed whole.
use bench_rules::{Answer, Table};
use device_io::Sink;
use line_texts::OutBuffer;
use script_text::{Reply, push_reply};
use std::alloc::Global;
use std::test::Fail;

// What is printed for a reply.
fn printed(alloc: Global, reply: &Reply) -> Result<Vec<u8>, Fail> {
    let mut out = OutBuffer::new();
    let mut writer = Sink::new(Vec::new(alloc));
    push_reply(&mut out, &mut writer, reply)?;
    out.flush(&mut writer)?;
    Ok(writer.into_inner())
}

#[test]
fn prints_the_least_number(rt: HostRuntime) -> Result<(), Fail> {
    let alloc = rt.alloc();
    let numbers = vec![in alloc; 100, -1, i128::MIN, 0]?;
    let reply = Reply::Asked(Ok(Answer::Table(Table::new(9, 2, 2, numbers))));
    let wanted = b"table 2\n9 100 -1\n10 -170141183460469231731687303715884105728 0\n";
    assert!(rt; printed(alloc, &reply)?.as_slice() == wanted.as_slice());
    Ok(())
}
