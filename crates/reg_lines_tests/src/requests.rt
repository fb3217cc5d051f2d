//! Which fault of a line is reported, and which operations do lines represent?

use crate::tables::{ReadAs, asserts_table};
use line_reading::unknown_keys_law;
use std::test::Fail;

/// Lines, and the request of each.
const TABLE: &str = r#"
# no JSON text
 => {"code":"L2","line":1}
{ => {"code":"L2","line":1}
{"ops":[]} x => {"code":"L2","line":1}
{"ops":[]}{} => {"code":"L2","line":1}
{'ops':[]} => {"code":"L2","line":1}
{"ops":[],} => {"code":"L2","line":1}
{"ops":[01]} => {"code":"L2","line":1}
nul => {"code":"L2","line":1}

# JSON, but no object
null => {"code":"L4","line":1}
true => {"code":"L4","line":1}
7 => {"code":"L4","line":1}
[] => {"code":"L4","line":1}
"ops" => {"code":"L4","line":1}

# the top keys
{} => {"code":"L5","field":"ops","line":1}
{"ops":null} => {"code":"L5","field":"ops","line":1}
{"ops":7} => {"code":"L5","field":"ops","line":1}
{"ops":"x"} => {"code":"L5","field":"ops","line":1}
{"ops":{}} => {"code":"L5","field":"ops","line":1}
{"ops":true} => {"code":"L5","field":"ops","line":1}
{"zz":1} => {"code":"L5","field":"ops","line":1}
{"tries":0} => {"code":"L5","field":"ops","line":1}
{"ops":null,"tries":1} => {"code":"L5","field":"ops","line":1}
{"ops":[],"tries":1} => {"code":"B1","line":1}
{"ops":[],"tries":null} => {"code":"B1","line":1}
{"ops":[{"op":"show","id":"00000000-0000-0000-0000-000000000001"}]} => 1; show "00000000-0000-0000-0000-000000000001"
{"ops":[{"op":"show","id":"00000000-0000-0000-0000-000000000001"}],"tries":null} => 1; show "00000000-0000-0000-0000-000000000001"
{"tries":1,"ops":[{"op":"show","id":"00000000-0000-0000-0000-000000000001"}]} => 1; show "00000000-0000-0000-0000-000000000001"
{"tries":2,"ops":[{"op":"show","id":"00000000-0000-0000-0000-000000000001"}]} => 2; show "00000000-0000-0000-0000-000000000001"
{"tries":16,"ops":[{"op":"show","id":"00000000-0000-0000-0000-000000000001"}]} => 16; show "00000000-0000-0000-0000-000000000001"
{"ops":[7],"tries":0,"zz":1} => {"code":"L5","field":"tries","line":1}
{"ops":[7],"tries":17,"zz":1} => {"code":"L5","field":"tries","line":1}
{"ops":[7],"tries":18446744073709551615,"zz":1} => {"code":"L5","field":"tries","line":1}
{"ops":[7],"tries":18446744073709551616,"zz":1} => {"code":"L5","field":"tries","line":1}
{"ops":[7],"tries":-0,"zz":1} => {"code":"L5","field":"tries","line":1}
{"ops":[7],"tries":-1,"zz":1} => {"code":"L5","field":"tries","line":1}
{"ops":[7],"tries":1.0,"zz":1} => {"code":"L5","field":"tries","line":1}
{"ops":[7],"tries":1e0,"zz":1} => {"code":"L5","field":"tries","line":1}
{"ops":[7],"tries":"1","zz":1} => {"code":"L5","field":"tries","line":1}
{"ops":[7],"tries":[1],"zz":1} => {"code":"L5","field":"tries","line":1}
{"ops":[7],"tries":{},"zz":1} => {"code":"L5","field":"tries","line":1}
{"ops":[7],"tries":true,"zz":1} => {"code":"L5","field":"tries","line":1}
{"ops":[7],"tries":false,"zz":1} => {"code":"L5","field":"tries","line":1}
{"ops":[7],"tries":1,"zz":1} => {"code":"L5","field":"zz","line":1}
{"ops":[],"tries":16,"before":0,"at":0} => {"code":"L5","field":"at","line":1}
{"ops":[],"tries":0,"tries":1} => {"code":"B1","line":1}
{"ops":[],"tries":0,"tries":null} => {"code":"B1","line":1}
{"ops":7,"\u006fps":[]} => {"code":"B1","line":1}
{"ops":[],"\u006fps":7} => {"code":"L5","field":"ops","line":1}

# keys that aren't known: in the order of their bytes, before the operations, whatever their value
{"ops":[],"zz":1} => {"code":"L5","field":"zz","line":1}
{"ops":[],"zz":1,"aa":1} => {"code":"L5","field":"aa","line":1}
{"zz":1,"Zz":1,"ops":[7]} => {"code":"L5","field":"Zz","line":1}
{"ops":[7],"zz":null} => {"code":"L5","field":"zz","line":1}
{"ops":[],"":1} => {"code":"L5","field":"","line":1}
{"ops":[],"～":1,"𐀀":1} => {"code":"L5","field":"～","line":1}
{"ops":[],"at":0} => {"code":"L5","field":"at","line":1}
{"ops":[],"After":0,"Token":null} => {"code":"L5","field":"After","line":1}

# keys are compared with their escapes read, and the last value of a key stays
{"\u006fp\u0073":[]} => {"code":"B1","line":1}
{"ops":7,"ops":[]} => {"code":"B1","line":1}
{"ops":[],"ops":7} => {"code":"L5","field":"ops","line":1}
{"ops":[],"a\"\\\/\b\f\n\r\t\u0001\u001F\u00e9\ud83d\ude00":1} => {"code":"L5","field":"a\"\\/\b\f\n\r\t\u0001\u001fé😀","line":1}
{"ops":[{"op":"mint","op":"authorised","agent":"spiffe://ex.org/x","agent":"spiffe://ex.org/spire/agent/n1"}]} => 1; authorised "spiffe://ex.org/spire/agent/n1"

# operations that are none, each in its turn
{"ops":[7]} => {"code":"L5","field":"ops","line":1,"op":0}
{"ops":[null]} => {"code":"L5","field":"ops","line":1,"op":0}
{"ops":[[]]} => {"code":"L5","field":"ops","line":1,"op":0}
{"ops":[{"op":"authorised","agent":"spiffe://ex.org/spire/agent/n1"},"x"]} => {"code":"L5","field":"ops","line":1,"op":1}
{"ops":[{"op":"mint"},7]} => {"code":"L5","field":"op","line":1,"op":0}
{"ops":[7,{"op":"mint"}]} => {"code":"L5","field":"ops","line":1,"op":0}
{"ops":[{}]} => {"code":"L5","field":"op","line":1,"op":0}
{"ops":[{"op":null}]} => {"code":"L5","field":"op","line":1,"op":0}
{"ops":[{"op":7}]} => {"code":"L5","field":"op","line":1,"op":0}
{"ops":[{"op":"mint"}]} => {"code":"L5","field":"op","line":1,"op":0}
{"ops":[{"op":"Create"}]} => {"code":"L5","field":"op","line":1,"op":0}
{"ops":[{"zz":1}]} => {"code":"L5","field":"op","line":1,"op":0}
{"ops":[{"op":"authorised","agent":"spiffe://ex.org/spire/agent/n1"},{"op":"authorised","agent":"spiffe://ex.org/spire/agent/n1"},{"op":"pages","size":1}]} => {"code":"L5","field":"op","line":1,"op":2}
{"ops":[{"op":"pages"}]} => {"code":"L5","field":"op","line":1,"op":0}

# keys of an operation that aren't known: after the known ones, in the order of their bytes
{"ops":[{"op":"show","id":"00000000-0000-0000-0000-000000000001","zz":1,"aa":1,"Zz":1}]} => {"code":"L5","field":"Zz","line":1,"op":0}
{"ops":[{"op":"show","id":"00000000-0000-0000-0000-000000000001","𐀀":1,"～":1,"é":1,"zz":1}]} => {"code":"L5","field":"zz","line":1,"op":0}
{"ops":[{"𐀀":1,"～":1,"é":1,"op":"show","id":"00000000-0000-0000-0000-000000000001"}]} => {"code":"L5","field":"é","line":1,"op":0}
{"ops":[{"op":"show","𐀀":1,"id":"00000000-0000-0000-0000-000000000001","～":1}]} => {"code":"L5","field":"～","line":1,"op":0}
{"ops":[{"op":"show","\ud800\udc00":1,"id":"00000000-0000-0000-0000-000000000001","\uff5e":1}]} => {"code":"L5","field":"～","line":1,"op":0}
{"ops":[{"op":"show","id":"00000000-0000-0000-0000-000000000001","𐀀":1,"\u00e9z":1,"é":1}]} => {"code":"L5","field":"é","line":1,"op":0}
{"ops":[{"op":"show","𐀀":1,"～":1}]} => {"code":"L5","field":"id","line":1,"op":0}
{"ops":[{"op":"show","id":"00000000-0000-0000-0000-000000000001"},{"op":"prune","𐀀":1,"before":7,"～":1},{"op":"show","id":"00000000-0000-0000-0000-000000000001","é":1}]} => {"code":"L5","field":"～","line":1,"op":1}

# authorised
{"ops":[{"op":"authorised"}]} => {"code":"L5","field":"agent","line":1,"op":0}
{"ops":[{"op":"authorised","agent":null}]} => {"code":"L5","field":"agent","line":1,"op":0}
{"ops":[{"op":"authorised","agent":7}]} => {"code":"L5","field":"agent","line":1,"op":0}
{"ops":[{"op":"authorised","agent":["spiffe://ex.org/spire/agent/n1"]}]} => {"code":"L5","field":"agent","line":1,"op":0}
{"ops":[{"op":"authorised","agent":"SPIFFE://ex.org/x"}]} => {"code":"I2","field":"agent","line":1,"op":0}
{"ops":[{"op":"authorised","agent":""}]} => {"code":"I2","field":"agent","line":1,"op":0}
{"ops":[{"op":"authorised","agent":"spiffe://ex.org/spire/agent/n1","selectors":[]}]} => {"code":"L5","field":"selectors","line":1,"op":0}
{"ops":[{"op":"authorised","agent":"spiffe://ex.org/spire/agent/n1"},{"op":"authorised","zz":1}]} => {"code":"L5","field":"agent","line":1,"op":1}
{"ops":[{"op":"authorised","agent":"spiffe://ex.org/a//b","zz":1}]} => {"code":"I6","field":"agent","line":1,"op":0}

# set_agent
{"ops":[{"op":"set_agent"}]} => {"code":"L5","field":"agent","line":1,"op":0}
{"ops":[{"op":"set_agent","selectors":[]}]} => {"code":"L5","field":"agent","line":1,"op":0}
{"ops":[{"op":"set_agent","agent":"spiffe://ex.org/spire/agent/n1"}]} => {"code":"L5","field":"selectors","line":1,"op":0}
{"ops":[{"op":"set_agent","agent":"spiffe://ex.org/spire/agent/n1","selectors":null}]} => {"code":"L5","field":"selectors","line":1,"op":0}
{"ops":[{"op":"set_agent","agent":"spiffe://ex.org/spire/agent/n1","selectors":"x:1"}]} => {"code":"L5","field":"selectors","line":1,"op":0}
{"ops":[{"op":"set_agent","agent":"spiffe://ex.org/spire/agent/n1","selectors":{}}]} => {"code":"L5","field":"selectors","line":1,"op":0}
{"ops":[{"op":"set_agent","agent":null,"selectors":[]}]} => {"code":"L5","field":"agent","line":1,"op":0}
{"ops":[{"op":"set_agent","agent":false,"selectors":[]}]} => {"code":"L5","field":"agent","line":1,"op":0}
{"ops":[{"op":"set_agent","agent":"spiffe://a:80/x","selectors":[7]}]} => {"code":"I5","field":"agent","line":1,"op":0}
{"ops":[{"op":"set_agent","agent":"spiffe://ex.org/spire/agent/n1","selectors":["unix",7]}]} => {"code":"S2","field":"selectors","line":1,"op":0}
{"ops":[{"op":"set_agent","agent":"spiffe://ex.org/spire/agent/n1","selectors":[7,"unix"]}]} => {"code":"L5","field":"selectors","line":1,"op":0}
{"ops":[{"op":"set_agent","agent":"spiffe://ex.org/spire/agent/n1","selectors":["a:b",null]}]} => {"code":"L5","field":"selectors","line":1,"op":0}
{"ops":[{"op":"set_agent","agent":"spiffe://ex.org/spire/agent/n1","selectors":[":x"]}]} => {"code":"S3","field":"selectors","line":1,"op":0}
{"ops":[{"op":"set_agent","agent":"spiffe://ex.org/spire/agent/n1","selectors":["x:"],"zz":1}]} => {"code":"S4","field":"selectors","line":1,"op":0}
{"ops":[{"op":"authorised","agent":"spiffe://ex.org/spire/agent/n1"},{"op":"authorised","agent":"spiffe://ex.org/spire/agent/n1"},{"op":"set_agent","agent":"spiffe://ex.org/spire/agent/n1","selectors":["x:1"],"zz":1,"id":1}]} => {"code":"L5","field":"id","line":1,"op":2}

# create: its keys in their order; parent, identity and selectors are required
{"ops":[{"op":"create"}]} => {"code":"L5","field":"parent","line":1,"op":0}
{"ops":[{"op":"create","parent":"spiffe://ex.org/spire/agent/n1","identity":"spiffe://ex.org/web","selectors":["unix:uid:1000"]}]} => 1; create "76b8e0ad-a0f1-4d90-805d-6ae55386bd28" "spiffe://ex.org/spire/agent/n1" "spiffe://ex.org/web" ["unix:uid:1000"] "" [] 0
{"ops":[{"op":"create","id":null,"parent":"spiffe://ex.org/spire/agent/n1","identity":"spiffe://ex.org/web","selectors":["unix:uid:1000"]}]} => 1; create "76b8e0ad-a0f1-4d90-805d-6ae55386bd28" "spiffe://ex.org/spire/agent/n1" "spiffe://ex.org/web" ["unix:uid:1000"] "" [] 0
{"ops":[{"op":"create","id":1,"parent":"spiffe://ex.org/spire/agent/n1","identity":"spiffe://ex.org/web","selectors":["unix:uid:1000"]}]} => {"code":"L5","field":"id","line":1,"op":0}
{"ops":[{"op":"create","id":null,"parent":"x","identity":"spiffe://ex.org/web","selectors":["unix:uid:1000"]}]} => {"code":"I2","field":"parent","line":1,"op":0}
{"ops":[{"op":"create","id":"","parent":"spiffe://ex.org/spire/agent/n1","identity":"spiffe://ex.org/web","selectors":["unix:uid:1000"]}]} => {"code":"U1","field":"id","line":1,"op":0}
{"ops":[{"op":"create","id":"1","parent":"spiffe://ex.org/spire/agent/n1","identity":"spiffe://ex.org/web","selectors":["unix:uid:1000"]}]} => {"code":"U1","field":"id","line":1,"op":0}
{"ops":[{"op":"create","id":"00000000-0000-0000-0000-000000000001 ","parent":7,"identity":"spiffe://ex.org/web","selectors":["unix:uid:1000"]}]} => {"code":"U1","field":"id","line":1,"op":0}
{"ops":[{"op":"create","id":"{00000000000000000000000000000001}","parent":"spiffe://ex.org/spire/agent/n1","identity":"spiffe://ex.org/web","selectors":["unix:uid:1000"]}]} => {"code":"U1","field":"id","line":1,"op":0}
{"ops":[{"op":"create","id":"00000000-0000-0000-0000-000000000001","identity":"spiffe://ex.org/web","selectors":["unix:uid:1000"]}]} => {"code":"L5","field":"parent","line":1,"op":0}
{"ops":[{"op":"create","id":"00000000-0000-0000-0000-000000000001","parent":null,"identity":"spiffe://ex.org/web","selectors":["unix:uid:1000"]}]} => {"code":"L5","field":"parent","line":1,"op":0}
{"ops":[{"op":"create","id":"00000000-0000-0000-0000-000000000001","parent":[],"identity":7,"selectors":["unix:uid:1000"]}]} => {"code":"L5","field":"parent","line":1,"op":0}
{"ops":[{"op":"create","id":"00000000-0000-0000-0000-000000000001","parent":"spiffe://ex.org/","identity":"spiffe://ex.org/web","selectors":["unix:uid:1000"]}]} => {"code":"I6","field":"parent","line":1,"op":0}
{"ops":[{"op":"create","id":"00000000-0000-0000-0000-000000000001","parent":"spiffe://ex.org/spire/agent/n1","selectors":["unix:uid:1000"]}]} => {"code":"L5","field":"identity","line":1,"op":0}
{"ops":[{"op":"create","id":"00000000-0000-0000-0000-000000000001","parent":"spiffe://ex.org/spire/agent/n1","identity":null,"selectors":["unix:uid:1000"]}]} => {"code":"L5","field":"identity","line":1,"op":0}
{"ops":[{"op":"create","id":"00000000-0000-0000-0000-000000000001","parent":"spiffe://ex.org/spire/agent/n1","identity":true,"selectors":7}]} => {"code":"L5","field":"identity","line":1,"op":0}
{"ops":[{"op":"create","id":"00000000-0000-0000-0000-000000000001","parent":"spiffe://ex.org/spire/agent/n1","identity":"spiffe://ex.org/..","selectors":["x"]}]} => {"code":"I7","field":"identity","line":1,"op":0}
{"ops":[{"op":"create","id":"00000000-0000-0000-0000-000000000001","parent":"spiffe://ex.org/spire/agent/n1","identity":"spiffe://ex.org/web"}]} => {"code":"L5","field":"selectors","line":1,"op":0}
{"ops":[{"op":"create","id":"00000000-0000-0000-0000-000000000001","parent":"spiffe://ex.org/spire/agent/n1","identity":"spiffe://ex.org/web","selectors":null}]} => {"code":"L5","field":"selectors","line":1,"op":0}
{"ops":[{"op":"create","id":"00000000-0000-0000-0000-000000000001","parent":"spiffe://ex.org/spire/agent/n1","identity":"spiffe://ex.org/web","selectors":"x:1"}]} => {"code":"L5","field":"selectors","line":1,"op":0}
{"ops":[{"op":"create","id":"00000000-0000-0000-0000-000000000001","parent":"spiffe://ex.org/spire/agent/n1","identity":"spiffe://ex.org/web","selectors":["x:1",[]],"zz":1}]} => {"code":"L5","field":"selectors","line":1,"op":0}
{"ops":[{"op":"create","id":"00000000-0000-0000-0000-000000000001","parent":"spiffe://ex.org/spire/agent/n1","identity":"spiffe://ex.org/web","selectors":[""]}]} => {"code":"S2","field":"selectors","line":1,"op":0}
{"ops":[{"op":"create","id":"00000000-0000-0000-0000-000000000001","parent":"spiffe://ex.org/spire/agent/n1","identity":"spiffe://ex.org/web","selectors":["unix:uid:1000"],"hint":""}]} => 1; create "00000000-0000-0000-0000-000000000001" "spiffe://ex.org/spire/agent/n1" "spiffe://ex.org/web" ["unix:uid:1000"] "" [] 0
{"ops":[{"op":"create","id":"00000000-0000-0000-0000-000000000001","parent":"spiffe://ex.org/spire/agent/n1","identity":"spiffe://ex.org/web","selectors":["unix:uid:1000"],"domains":[]}]} => 1; create "00000000-0000-0000-0000-000000000001" "spiffe://ex.org/spire/agent/n1" "spiffe://ex.org/web" ["unix:uid:1000"] "" [] 0
{"ops":[{"op":"create","id":"00000000-0000-0000-0000-000000000001","parent":"spiffe://ex.org/spire/agent/n1","identity":"spiffe://ex.org/web","selectors":["unix:uid:1000"],"expiry":0}]} => 1; create "00000000-0000-0000-0000-000000000001" "spiffe://ex.org/spire/agent/n1" "spiffe://ex.org/web" ["unix:uid:1000"] "" [] 0
{"ops":[{"op":"create","id":"00000000-0000-0000-0000-000000000001","parent":"spiffe://ex.org/spire/agent/n1","identity":"spiffe://ex.org/web","selectors":["unix:uid:1000"],"agent":"spiffe://ex.org/spire/agent/n1","Agent":"spiffe://ex.org/spire/agent/n1"}]} => {"code":"L5","field":"Agent","line":1,"op":0}

# what is no batch, after all operations were read
{"ops":[]} => {"code":"B1","line":1}
{"ops":[{"op":"authorised","agent":"spiffe://b.org/spire/agent/n1"}]} => {"code":"B3","line":1,"op":0}
{"ops":[{"op":"authorised","agent":"spiffe://ex.org/spire/agent/n1"},{"op":"create","id":"00000000-0000-0000-0000-000000000001","parent":"spiffe://ex.org/spire/agent/n1","identity":"spiffe://b.org/web","selectors":["unix:uid:1000"]}]} => {"code":"B3","line":1,"op":1}
{"ops":[{"op":"create","id":"00000000-0000-0000-0000-000000000001","parent":"spiffe://ex.org","identity":"spiffe://ex.org/web","selectors":["unix:uid:1000"]}]} => {"code":"B4","line":1,"op":0}
{"ops":[{"op":"authorised","agent":"spiffe://ex.org/spire/agent/n1"},{"op":"authorised","agent":"spiffe://ex.org/spire/agent/n1"},{"op":"create","id":"00000000-0000-0000-0000-000000000001","parent":"spiffe://ex.org/spire/agent/n1","identity":"spiffe://ex.org/spire/server","selectors":["unix:uid:1000"]}]} => {"code":"B5","line":1,"op":2}
{"ops":[{"op":"create","id":"00000000-0000-0000-0000-000000000001","parent":"spiffe://ex.org/spire/agent/n1","identity":"spiffe://ex.org/web","selectors":[]}]} => {"code":"B6","line":1,"op":0}
{"ops":[{"op":"authorised","agent":"spiffe://ex.org/n1"}]} => {"code":"B10","line":1,"op":0}
{"ops":[{"op":"authorised","agent":"spiffe://b.org/spire/agent/n1"},{"op":"mint"}]} => {"code":"L5","field":"op","line":1,"op":1}
"#;

#[test]
fn lines_are_read_in_the_order_of_the_format(rt: HostRuntime) -> Result<(), Fail> {
    unknown_keys_law();
    asserts_table(&rt, rt.alloc(), ReadAs::Request, TABLE)
}

/// Lines with 64 operations, and with more: 65 are too many, which is checked after all of them were read.
const MANY: &str = r#"
{"ops":[{"op":"show","id":"00000000-0000-0000-0000-000000000001"}«63*,{"op":"show","id":"00000000-0000-0000-0000-000000000001"}»]} => 1; show "00000000-0000-0000-0000-000000000001"«63*; show "00000000-0000-0000-0000-000000000001"»
{"ops":[{"op":"show","id":"00000000-0000-0000-0000-000000000001"}«63*,{"op":"show","id":"00000000-0000-0000-0000-000000000001"}»,{"op":"show","id":"00000000-0000-0000-0000-000000000001"}]} => {"code":"B2","line":1}
{"ops":[{"op":"show","id":"1"}«63*,{"op":"show","id":"00000000-0000-0000-0000-000000000001"}»,{"op":"show","id":"00000000-0000-0000-0000-000000000001"}]} => {"code":"U1","field":"id","line":1,"op":0}
{"ops":[{"op":"show","id":"00000000-0000-0000-0000-000000000001"}«63*,{"op":"show","id":"00000000-0000-0000-0000-000000000001"}»,{"op":"show","id":"1"}]} => {"code":"U1","field":"id","line":1,"op":64}
{"ops":[{"op":"show","id":"00000000-0000-0000-0000-000000000001"}«63*,{"op":"show","id":"00000000-0000-0000-0000-000000000001"}»,{"op":"set_agent","agent":"spiffe://ex.org/spire/agent/n1","selectors":["unix"]}]} => {"code":"S2","field":"selectors","line":1,"op":64}
{"ops":[{"op":"show","id":"00000000-0000-0000-0000-000000000001"}«63*,{"op":"show","id":"00000000-0000-0000-0000-000000000001"}»,{"op":"set_agent","agent":"spiffe://ex.org/spire/agent/n1","selectors":["unix"]},7]} => {"code":"S2","field":"selectors","line":1,"op":64}
{"ops":[{"op":"show","id":"00000000-0000-0000-0000-000000000001"},{"op":"set_agent","agent":"spiffe://ex.org/spire/agent/n1","selectors":["unix"]}«63*,{"op":"show","id":"00000000-0000-0000-0000-000000000001"}»]} => {"code":"S2","field":"selectors","line":1,"op":1}
{"ops":[{"op":"show","id":"00000000-0000-0000-0000-000000000001"}«63*,{"op":"show","id":"00000000-0000-0000-0000-000000000001"}»,7]} => {"code":"L5","field":"ops","line":1,"op":64}
"#;

#[test]
fn one_operation_too_many_is_reported_after_a_refused_one(rt: HostRuntime) -> Result<(), Fail> {
    asserts_table(&rt, rt.alloc(), ReadAs::Request, MANY)
}
