//! Which keys does each operation have, and what do they mean?

use crate::tables::{ReadAs, asserts_table};
use std::test::Fail;

/// Lines of operations on entries, and the request of each.
const ENTRIES: &str = r#"
# create: the optional keys, and their defaults; null is as if the key were absent
{"ops":[{"op":"create","id":"00000000-0000-0000-0000-000000000001","parent":"spiffe://ex.org/a","identity":"spiffe://ex.org/b","selectors":["u:1"]}]} => 1; create "00000000-0000-0000-0000-000000000001" "spiffe://ex.org/a" "spiffe://ex.org/b" ["u:1"] "" [] 0
{"ops":[{"op":"create","id":"00000000-0000-0000-0000-000000000001","parent":"spiffe://ex.org/a","identity":"spiffe://ex.org/b","selectors":["u:1"],"hint":null,"domains":null,"expiry":null}]} => 1; create "00000000-0000-0000-0000-000000000001" "spiffe://ex.org/a" "spiffe://ex.org/b" ["u:1"] "" [] 0
{"ops":[{"op":"create","id":"00000000-0000-0000-0000-000000000001","parent":"spiffe://ex.org/a","identity":"spiffe://ex.org/b","selectors":["u:1"],"hint":"h","domains":["b.org"],"expiry":7}]} => 1; create "00000000-0000-0000-0000-000000000001" "spiffe://ex.org/a" "spiffe://ex.org/b" ["u:1"] "h" ["b.org"] 7
{"ops":[{"op":"create","expiry":7,"domains":[],"hint":"","selectors":["u:1"],"identity":"spiffe://ex.org/b","parent":"spiffe://ex.org/a","id":"00000000-0000-0000-0000-000000000001"}]} => 1; create "00000000-0000-0000-0000-000000000001" "spiffe://ex.org/a" "spiffe://ex.org/b" ["u:1"] "" [] 7
{"ops":[{"op":"create","id":"00000000-0000-0000-0000-000000000001","parent":"spiffe://ex.org/a","identity":"spiffe://ex.org/b","selectors":["u:1"],"domains":["b.org","a.org","b.org","a-b.org","a_.org","0"]}]} => 1; create "00000000-0000-0000-0000-000000000001" "spiffe://ex.org/a" "spiffe://ex.org/b" ["u:1"] "" ["0","a-b.org","a.org","a_.org","b.org"] 0
{"ops":[{"op":"create","id":"00000000-0000-0000-0000-000000000001","parent":"spiffe://ex.org/a","identity":"spiffe://ex.org/b","selectors":["u:1"],"hint":"\u0068\u00e9\ud83d\ude00\""}]} => 1; create "00000000-0000-0000-0000-000000000001" "spiffe://ex.org/a" "spiffe://ex.org/b" ["u:1"] "hé😀\"" [] 0

# create: its keys in their order
{"ops":[{"op":"create","id":"00000000-0000-0000-0000-000000000001","identity":"spiffe://ex.org/b","selectors":["u:1"],"hint":7,"domains":7,"zz":1}]} => {"code":"L5","field":"parent","line":1,"op":0}
{"ops":[{"op":"create","id":"00000000-0000-0000-0000-000000000001","parent":null,"identity":"spiffe://ex.org/b","selectors":["u:1"],"hint":7,"domains":7,"zz":1}]} => {"code":"L5","field":"parent","line":1,"op":0}
{"ops":[{"op":"create","id":"00000000-0000-0000-0000-000000000001","parent":7,"identity":"spiffe://ex.org/b","selectors":["u:1"],"hint":7,"domains":7,"zz":1}]} => {"code":"L5","field":"parent","line":1,"op":0}
{"ops":[{"op":"create","id":"00000000-0000-0000-0000-000000000001","parent":"spiffe://ex.org/","identity":"spiffe://ex.org/b","selectors":["u:1"],"hint":7,"domains":7,"zz":1}]} => {"code":"I6","field":"parent","line":1,"op":0}
{"ops":[{"op":"create","id":"00000000-0000-0000-0000-000000000001","parent":"spiffe://ex.org/a","selectors":["u:1"],"hint":7,"domains":7,"zz":1}]} => {"code":"L5","field":"identity","line":1,"op":0}
{"ops":[{"op":"create","id":"00000000-0000-0000-0000-000000000001","parent":"spiffe://ex.org/a","identity":null,"selectors":["u:1"],"hint":7,"domains":7,"zz":1}]} => {"code":"L5","field":"identity","line":1,"op":0}
{"ops":[{"op":"create","id":"00000000-0000-0000-0000-000000000001","parent":"spiffe://ex.org/a","identity":"http://ex.org","selectors":["u:1"],"hint":7,"domains":7,"zz":1}]} => {"code":"I2","field":"identity","line":1,"op":0}
{"ops":[{"op":"create","id":"00000000-0000-0000-0000-000000000001","parent":"spiffe://ex.org/a","identity":"spiffe://ex.org/b","hint":7,"domains":7,"zz":1}]} => {"code":"L5","field":"selectors","line":1,"op":0}
{"ops":[{"op":"create","id":"00000000-0000-0000-0000-000000000001","parent":"spiffe://ex.org/a","identity":"spiffe://ex.org/b","selectors":null,"hint":7,"domains":7,"zz":1}]} => {"code":"L5","field":"selectors","line":1,"op":0}
{"ops":[{"op":"create","id":"00000000-0000-0000-0000-000000000001","parent":"spiffe://ex.org/a","identity":"spiffe://ex.org/b","selectors":["unix",7],"hint":7,"domains":7,"zz":1}]} => {"code":"S2","field":"selectors","line":1,"op":0}
{"ops":[{"op":"create","id":"00000000-0000-0000-0000-000000000001","parent":"spiffe://ex.org/a","identity":"spiffe://ex.org/b","selectors":[7,"unix"],"hint":7,"domains":7,"zz":1}]} => {"code":"L5","field":"selectors","line":1,"op":0}
{"ops":[{"op":"create","id":"00000000-0000-0000-0000-000000000001","parent":"spiffe://ex.org/a","identity":"spiffe://ex.org/b","selectors":["u:1"],"hint":7,"domains":7,"expiry":-1,"zz":1}]} => {"code":"L5","field":"hint","line":1,"op":0}
{"ops":[{"op":"create","id":"00000000-0000-0000-0000-000000000001","parent":"spiffe://ex.org/a","identity":"spiffe://ex.org/b","selectors":["u:1"],"domains":7,"expiry":-1,"zz":1}]} => {"code":"L5","field":"domains","line":1,"op":0}
{"ops":[{"op":"create","id":"00000000-0000-0000-0000-000000000001","parent":"spiffe://ex.org/a","identity":"spiffe://ex.org/b","selectors":["u:1"],"expiry":-1,"zz":1}]} => {"code":"L5","field":"expiry","line":1,"op":0}
{"ops":[{"op":"create","id":"00000000-0000-0000-0000-000000000001","parent":"spiffe://ex.org/a","identity":"spiffe://ex.org/b","selectors":["u:1"],"zz":1,"revision":0,"Id":null}]} => {"code":"L5","field":"Id","line":1,"op":0}
{"ops":[{"op":"create","id":"00000000-0000-0000-0000-000000000001","parent":"spiffe://ex.org/a","identity":"spiffe://ex.org/b","selectors":["u:1"],"revision":null}]} => {"code":"L5","field":"revision","line":1,"op":0}
{"ops":[{"op":"create","id":"00000000-0000-0000-0000-000000000001","parent":"spiffe://ex.org/a","identity":"spiffe://ex.org/b","selectors":["u:1"],"match":null}]} => {"code":"L5","field":"match","line":1,"op":0}

# domains, item by item
{"ops":[{"op":"create","id":"00000000-0000-0000-0000-000000000001","parent":"spiffe://ex.org/a","identity":"spiffe://ex.org/b","selectors":["u:1"],"domains":"b.org","expiry":""}]} => {"code":"L5","field":"domains","line":1,"op":0}
{"ops":[{"op":"create","id":"00000000-0000-0000-0000-000000000001","parent":"spiffe://ex.org/a","identity":"spiffe://ex.org/b","selectors":["u:1"],"domains":{},"expiry":""}]} => {"code":"L5","field":"domains","line":1,"op":0}
{"ops":[{"op":"create","id":"00000000-0000-0000-0000-000000000001","parent":"spiffe://ex.org/a","identity":"spiffe://ex.org/b","selectors":["u:1"],"domains":true,"expiry":""}]} => {"code":"L5","field":"domains","line":1,"op":0}
{"ops":[{"op":"create","id":"00000000-0000-0000-0000-000000000001","parent":"spiffe://ex.org/a","identity":"spiffe://ex.org/b","selectors":["u:1"],"domains":[7],"expiry":""}]} => {"code":"L5","field":"domains","line":1,"op":0}
{"ops":[{"op":"create","id":"00000000-0000-0000-0000-000000000001","parent":"spiffe://ex.org/a","identity":"spiffe://ex.org/b","selectors":["u:1"],"domains":[null],"expiry":""}]} => {"code":"L5","field":"domains","line":1,"op":0}
{"ops":[{"op":"create","id":"00000000-0000-0000-0000-000000000001","parent":"spiffe://ex.org/a","identity":"spiffe://ex.org/b","selectors":["u:1"],"domains":["b.org",["c.org"]],"expiry":""}]} => {"code":"L5","field":"domains","line":1,"op":0}
{"ops":[{"op":"create","id":"00000000-0000-0000-0000-000000000001","parent":"spiffe://ex.org/a","identity":"spiffe://ex.org/b","selectors":["u:1"],"domains":["B.org",7],"expiry":""}]} => {"code":"I5","field":"domains","line":1,"op":0}
{"ops":[{"op":"create","id":"00000000-0000-0000-0000-000000000001","parent":"spiffe://ex.org/a","identity":"spiffe://ex.org/b","selectors":["u:1"],"domains":[7,"B.org"],"expiry":""}]} => {"code":"L5","field":"domains","line":1,"op":0}
{"ops":[{"op":"create","id":"00000000-0000-0000-0000-000000000001","parent":"spiffe://ex.org/a","identity":"spiffe://ex.org/b","selectors":["u:1"],"domains":[""],"expiry":""}]} => {"code":"I3","field":"domains","line":1,"op":0}
{"ops":[{"op":"create","id":"00000000-0000-0000-0000-000000000001","parent":"spiffe://ex.org/a","identity":"spiffe://ex.org/b","selectors":["u:1"],"domains":["b.org","spiffe://c.org"],"expiry":""}]} => {"code":"I5","field":"domains","line":1,"op":0}
{"ops":[{"op":"create","id":"00000000-0000-0000-0000-000000000001","parent":"spiffe://ex.org/a","identity":"spiffe://ex.org/b","selectors":["u:1"],"domains":["b org",""],"expiry":""}]} => {"code":"I5","field":"domains","line":1,"op":0}
{"ops":[{"op":"create","id":"00000000-0000-0000-0000-000000000001","parent":"spiffe://ex.org/a","identity":"spiffe://ex.org/b","selectors":["u:1"],"domains":["bbbbbbbbbbbbbbbbbbbbbbbbbbbbbbbbbbbbbbbbbbbbbbbbbbbbbbbbbbbbbbbbbbbbbbbbbbbbbbbbbbbbbbbbbbbbbbbbbbbbbbbbbbbbbbbbbbbbbbbbbbbbbbbbbbbbbbbbbbbbbbbbbbbbbbbbbbbbbbbbbbbbbbbbbbbbbbbbbbbbbbbbbbbbbbbbbbbbbbbbbbbbbbbbbbbbbbbbbbbbbbbbbbbbbbbbbbbbbbbbbbbbbbbbbbbbbbbb",7],"expiry":""}]} => {"code":"I4","field":"domains","line":1,"op":0}
{"ops":[{"op":"create","id":"00000000-0000-0000-0000-000000000001","parent":"spiffe://ex.org/a","identity":"spiffe://ex.org/b","selectors":["u:1"],"domains":["bbbbbbbbbbbbbbbbbbbbbbbbbbbbbbbbbbbbbbbbbbbbbbbbbbbbbbbbbbbbbbbbbbbbbbbbbbbbbbbbbbbbbbbbbbbbbbbbbbbbbbbbbbbbbbbbbbbbbbbbbbbbbbbbbbbbbbbbbbbbbbbbbbbbbbbbbbbbbbbbbbbbbbbbbbbbbbbbbbbbbbbbbbbbbbbbbbbbbbbbbbbbbbbbbbbbbbbbbbbbbbbbbbbbbbbbbbbbbbbbbbbbbbbbbbbbbbb"]}]} => 1; create "00000000-0000-0000-0000-000000000001" "spiffe://ex.org/a" "spiffe://ex.org/b" ["u:1"] "" ["bbbbbbbbbbbbbbbbbbbbbbbbbbbbbbbbbbbbbbbbbbbbbbbbbbbbbbbbbbbbbbbbbbbbbbbbbbbbbbbbbbbbbbbbbbbbbbbbbbbbbbbbbbbbbbbbbbbbbbbbbbbbbbbbbbbbbbbbbbbbbbbbbbbbbbbbbbbbbbbbbbbbbbbbbbbbbbbbbbbbbbbbbbbbbbbbbbbbbbbbbbbbbbbbbbbbbbbbbbbbbbbbbbbbbbbbbbbbbbbbbbbbbbbbbbbbbbb"] 0

{"ops":[{"op":"create","id":"00000000-0000-0000-0000-000000000001","parent":"spiffe://ex.org/a","identity":"spiffe://ex.org/b","selectors":["u:1"],"domains":["1","2","3","4","5","6","7","8","8","1"]}]} => 1; create "00000000-0000-0000-0000-000000000001" "spiffe://ex.org/a" "spiffe://ex.org/b" ["u:1"] "" ["1","2","3","4","5","6","7","8"] 0
{"ops":[{"op":"create","id":"00000000-0000-0000-0000-000000000001","parent":"spiffe://ex.org/a","identity":"spiffe://ex.org/b","selectors":["u:1"],"domains":["1","2","3","4","5","6","7","8","9"]}]} => {"code":"B7","line":1,"op":0}

# update: each entry key anew, and the revision that is expected
{"ops":[{"op":"update","id":"00000000-0000-0000-0000-000000000001","parent":"spiffe://ex.org/a","identity":"spiffe://ex.org/b","selectors":["u:1"]}]} => 1; update "00000000-0000-0000-0000-000000000001" "spiffe://ex.org/a" "spiffe://ex.org/b" ["u:1"] "" [] 0 any
{"ops":[{"op":"update","id":"00000000-0000-0000-0000-000000000001","parent":"spiffe://ex.org/a","identity":"spiffe://ex.org/b","selectors":["u:1"],"hint":null,"domains":null,"expiry":null,"revision":null}]} => 1; update "00000000-0000-0000-0000-000000000001" "spiffe://ex.org/a" "spiffe://ex.org/b" ["u:1"] "" [] 0 any
{"ops":[{"op":"update","id":"00000000-0000-0000-0000-000000000001","parent":"spiffe://ex.org/a","identity":"spiffe://ex.org/b","selectors":["u:1"],"hint":"h","domains":["c.org","b.org"],"expiry":18446744073709551615,"revision":0}]} => 1; update "00000000-0000-0000-0000-000000000001" "spiffe://ex.org/a" "spiffe://ex.org/b" ["u:1"] "h" ["b.org","c.org"] 18446744073709551615 0
{"ops":[{"op":"update","revision":"","parent":"spiffe://ex.org/a","identity":"spiffe://ex.org/b","selectors":["u:1"],"expiry":"","zz":1}]} => {"code":"L5","field":"id","line":1,"op":0}
{"ops":[{"op":"update","revision":"","id":null,"parent":"spiffe://ex.org/a","identity":"spiffe://ex.org/b","selectors":["u:1"],"expiry":"","zz":1}]} => {"code":"L5","field":"id","line":1,"op":0}
{"ops":[{"op":"update","revision":"","id":1,"parent":"spiffe://ex.org/a","identity":"spiffe://ex.org/b","selectors":["u:1"],"expiry":"","zz":1}]} => {"code":"L5","field":"id","line":1,"op":0}
{"ops":[{"op":"update","revision":"","id":"1","parent":"spiffe://ex.org/a","identity":"spiffe://ex.org/b","selectors":["u:1"],"expiry":"","zz":1}]} => {"code":"U1","field":"id","line":1,"op":0}
{"ops":[{"op":"update","revision":"","id":"00000000-0000-0000-0000-000000000001","identity":"spiffe://ex.org/b","selectors":["u:1"],"expiry":"","zz":1}]} => {"code":"L5","field":"parent","line":1,"op":0}
{"ops":[{"op":"update","revision":"","id":"00000000-0000-0000-0000-000000000001","parent":null,"identity":"spiffe://ex.org/b","selectors":["u:1"],"expiry":"","zz":1}]} => {"code":"L5","field":"parent","line":1,"op":0}
{"ops":[{"op":"update","revision":"","id":"00000000-0000-0000-0000-000000000001","parent":"spiffe://ex.org/a","identity":null,"selectors":["u:1"],"expiry":"","zz":1}]} => {"code":"L5","field":"identity","line":1,"op":0}
{"ops":[{"op":"update","revision":"","id":"00000000-0000-0000-0000-000000000001","parent":"spiffe://ex.org/a","identity":"spiffe://ex.org/b","expiry":"","zz":1}]} => {"code":"L5","field":"selectors","line":1,"op":0}
{"ops":[{"op":"update","revision":"","id":"00000000-0000-0000-0000-000000000001","parent":"spiffe://ex.org/a","identity":"spiffe://ex.org/b","selectors":null,"expiry":"","zz":1}]} => {"code":"L5","field":"selectors","line":1,"op":0}
{"ops":[{"op":"update","id":"00000000-0000-0000-0000-000000000001","parent":"spiffe://ex.org/a","identity":"spiffe://ex.org/b","selectors":["u:1"],"revision":"","expiry":"","zz":1}]} => {"code":"L5","field":"expiry","line":1,"op":0}
{"ops":[{"op":"update","id":"00000000-0000-0000-0000-000000000001","parent":"spiffe://ex.org/a","identity":"spiffe://ex.org/b","selectors":["u:1"],"revision":"","zz":1}]} => {"code":"L5","field":"revision","line":1,"op":0}
{"ops":[{"op":"update","id":"00000000-0000-0000-0000-000000000001","parent":"spiffe://ex.org/a","identity":"spiffe://ex.org/b","selectors":["u:1"],"zz":1,"agent":1}]} => {"code":"L5","field":"agent","line":1,"op":0}

# lifetimes: in a create and in an update, after the expiry
{"ops":[{"op":"create","id":"00000000-0000-0000-0000-000000000001","parent":"spiffe://ex.org/a","identity":"spiffe://ex.org/b","selectors":["u:1"],"x509_svid_ttl":3600}]} => 1; create "00000000-0000-0000-0000-000000000001" "spiffe://ex.org/a" "spiffe://ex.org/b" ["u:1"] "" [] 0 x509 3600
{"ops":[{"op":"create","id":"00000000-0000-0000-0000-000000000001","parent":"spiffe://ex.org/a","identity":"spiffe://ex.org/b","selectors":["u:1"],"jwt_svid_ttl":300}]} => 1; create "00000000-0000-0000-0000-000000000001" "spiffe://ex.org/a" "spiffe://ex.org/b" ["u:1"] "" [] 0 jwt 300
{"ops":[{"op":"create","id":"00000000-0000-0000-0000-000000000001","parent":"spiffe://ex.org/a","identity":"spiffe://ex.org/b","selectors":["u:1"],"jwt_svid_ttl":18446744073709551615,"x509_svid_ttl":1,"expiry":7}]} => 1; create "00000000-0000-0000-0000-000000000001" "spiffe://ex.org/a" "spiffe://ex.org/b" ["u:1"] "" [] 7 x509 1 jwt 18446744073709551615
{"ops":[{"op":"create","id":"00000000-0000-0000-0000-000000000001","parent":"spiffe://ex.org/a","identity":"spiffe://ex.org/b","selectors":["u:1"],"x509_svid_ttl":null,"jwt_svid_ttl":null}]} => 1; create "00000000-0000-0000-0000-000000000001" "spiffe://ex.org/a" "spiffe://ex.org/b" ["u:1"] "" [] 0
{"ops":[{"op":"create","id":"00000000-0000-0000-0000-000000000001","parent":"spiffe://ex.org/a","identity":"spiffe://ex.org/b","selectors":["u:1"],"x509_svid_ttl":0,"jwt_svid_ttl":0}]} => 1; create "00000000-0000-0000-0000-000000000001" "spiffe://ex.org/a" "spiffe://ex.org/b" ["u:1"] "" [] 0
{"ops":[{"op":"create","id":"00000000-0000-0000-0000-000000000001","parent":"spiffe://ex.org/a","identity":"spiffe://ex.org/b","selectors":["u:1"],"expiry":-1,"x509_svid_ttl":-1,"jwt_svid_ttl":-1,"zz":1}]} => {"code":"L5","field":"expiry","line":1,"op":0}
{"ops":[{"op":"create","id":"00000000-0000-0000-0000-000000000001","parent":"spiffe://ex.org/a","identity":"spiffe://ex.org/b","selectors":["u:1"],"jwt_svid_ttl":-1,"x509_svid_ttl":-1,"zz":1}]} => {"code":"L5","field":"x509_svid_ttl","line":1,"op":0}
{"ops":[{"op":"create","id":"00000000-0000-0000-0000-000000000001","parent":"spiffe://ex.org/a","identity":"spiffe://ex.org/b","selectors":["u:1"],"x509_svid_ttl":18446744073709551616}]} => {"code":"L5","field":"x509_svid_ttl","line":1,"op":0}
{"ops":[{"op":"create","id":"00000000-0000-0000-0000-000000000001","parent":"spiffe://ex.org/a","identity":"spiffe://ex.org/b","selectors":["u:1"],"x509_svid_ttl":"3600"}]} => {"code":"L5","field":"x509_svid_ttl","line":1,"op":0}
{"ops":[{"op":"create","id":"00000000-0000-0000-0000-000000000001","parent":"spiffe://ex.org/a","identity":"spiffe://ex.org/b","selectors":["u:1"],"x509_svid_ttl":1,"jwt_svid_ttl":-1,"zz":1}]} => {"code":"L5","field":"jwt_svid_ttl","line":1,"op":0}
{"ops":[{"op":"create","id":"00000000-0000-0000-0000-000000000001","parent":"spiffe://ex.org/a","identity":"spiffe://ex.org/b","selectors":["u:1"],"jwt_svid_ttl":1.0}]} => {"code":"L5","field":"jwt_svid_ttl","line":1,"op":0}
{"ops":[{"op":"create","id":"00000000-0000-0000-0000-000000000001","parent":"spiffe://ex.org/a","identity":"spiffe://ex.org/b","selectors":["u:1"],"jwt_svid_ttl":[]}]} => {"code":"L5","field":"jwt_svid_ttl","line":1,"op":0}
{"ops":[{"op":"create","id":"00000000-0000-0000-0000-000000000001","parent":"spiffe://ex.org/a","identity":"spiffe://ex.org/b","selectors":["u:1"],"x509_svid_ttl":1,"ttl":1}]} => {"code":"L5","field":"ttl","line":1,"op":0}
{"ops":[{"op":"create","id":"00000000-0000-0000-0000-000000000001","parent":"spiffe://ex.org/a","identity":"spiffe://ex.org/b","selectors":["u:1"],"x509_svid_TTL":1}]} => {"code":"L5","field":"x509_svid_TTL","line":1,"op":0}
{"ops":[{"op":"update","id":"00000000-0000-0000-0000-000000000001","parent":"spiffe://ex.org/a","identity":"spiffe://ex.org/b","selectors":["u:1"],"revision":2,"jwt_svid_ttl":300,"x509_svid_ttl":3600}]} => 1; update "00000000-0000-0000-0000-000000000001" "spiffe://ex.org/a" "spiffe://ex.org/b" ["u:1"] "" [] 0 x509 3600 jwt 300 2
{"ops":[{"op":"update","id":"00000000-0000-0000-0000-000000000001","parent":"spiffe://ex.org/a","identity":"spiffe://ex.org/b","selectors":["u:1"],"expiry":"","x509_svid_ttl":"","revision":""}]} => {"code":"L5","field":"expiry","line":1,"op":0}
{"ops":[{"op":"update","id":"00000000-0000-0000-0000-000000000001","parent":"spiffe://ex.org/a","identity":"spiffe://ex.org/b","selectors":["u:1"],"x509_svid_ttl":"","jwt_svid_ttl":"","revision":""}]} => {"code":"L5","field":"x509_svid_ttl","line":1,"op":0}
{"ops":[{"op":"update","id":"00000000-0000-0000-0000-000000000001","parent":"spiffe://ex.org/a","identity":"spiffe://ex.org/b","selectors":["u:1"],"jwt_svid_ttl":"","revision":"","zz":1}]} => {"code":"L5","field":"jwt_svid_ttl","line":1,"op":0}
{"ops":[{"op":"show","id":"00000000-0000-0000-0000-000000000001","x509_svid_ttl":1}]} => {"code":"L5","field":"x509_svid_ttl","line":1,"op":0}

# delete and show
{"ops":[{"op":"delete","id":"00000000-0000-0000-0000-000000000001"}]} => 1; delete "00000000-0000-0000-0000-000000000001" any
{"ops":[{"op":"delete","id":"00000000-0000-0000-0000-000000000001","revision":null}]} => 1; delete "00000000-0000-0000-0000-000000000001" any
{"ops":[{"op":"delete","revision":3,"id":"00000000-0000-0000-0000-000000000001"}]} => 1; delete "00000000-0000-0000-0000-000000000001" 3
{"ops":[{"op":"delete","revision":-3}]} => {"code":"L5","field":"id","line":1,"op":0}
{"ops":[{"op":"delete","id":null}]} => {"code":"L5","field":"id","line":1,"op":0}
{"ops":[{"op":"delete","id":"x","revision":-3}]} => {"code":"U1","field":"id","line":1,"op":0}
{"ops":[{"op":"delete","id":"00000000-0000-0000-0000-000000000001","revision":-3,"hint":1}]} => {"code":"L5","field":"revision","line":1,"op":0}
{"ops":[{"op":"delete","id":"00000000-0000-0000-0000-000000000001","hint":null}]} => {"code":"L5","field":"hint","line":1,"op":0}
{"ops":[{"op":"show","id":"00000000-0000-0000-0000-000000000001"}]} => 1; show "00000000-0000-0000-0000-000000000001"
{"ops":[{"op":"show","id":"0A0B0C0D-0000-4000-8000-0000000000FF"}]} => 1; show "0a0b0c0d-0000-4000-8000-0000000000ff"
{"ops":[{"op":"show","id":"0a0b0c0d0000400080000000000000ff"}]} => 1; show "0a0b0c0d-0000-4000-8000-0000000000ff"
{"ops":[{"op":"show","id":"{0a0b0c0d-0000-4000-8000-0000000000fF}"}]} => 1; show "0a0b0c0d-0000-4000-8000-0000000000ff"
{"ops":[{"op":"show","id":"URN:uuid:0a0b0c0d-0000-4000-8000-0000000000ff"}]} => 1; show "0a0b0c0d-0000-4000-8000-0000000000ff"
{"ops":[{"op":"show","id":"urn:uuid:0a0b0c0d-0000-4000-8000-0000000000ff"}]} => 1; show "0a0b0c0d-0000-4000-8000-0000000000ff"
{"ops":[{"op":"show"}]} => {"code":"L5","field":"id","line":1,"op":0}
{"ops":[{"op":"show","id":null}]} => {"code":"L5","field":"id","line":1,"op":0}
{"ops":[{"op":"show","id":["00000000-0000-0000-0000-000000000001"]}]} => {"code":"L5","field":"id","line":1,"op":0}
{"ops":[{"op":"show","id":"{0a0b0c0d0000400080000000000000ff}","zz":1}]} => {"code":"U1","field":"id","line":1,"op":0}
{"ops":[{"op":"show","id":"00000000-0000-0000-0000-000000000001","revision":1}]} => {"code":"L5","field":"revision","line":1,"op":0}
{"ops":[{"op":"show","id":"x","id":"00000000-0000-0000-0000-000000000001"}]} => 1; show "00000000-0000-0000-0000-000000000001"
{"ops":[{"\u006fp":"sho\u0077","\u0069d":"00000000-0000-0000-0000-000000000001"}]} => 1; show "00000000-0000-0000-0000-000000000001"

# children and prune
{"ops":[{"op":"children","parent":"spiffe://ex.org/a"}]} => 1; children "spiffe://ex.org/a"
{"ops":[{"op":"children"}]} => {"code":"L5","field":"parent","line":1,"op":0}
{"ops":[{"op":"children","parent":null}]} => {"code":"L5","field":"parent","line":1,"op":0}
{"ops":[{"op":"children","parent":"spiffe://ex.org/a/./b","id":1}]} => {"code":"I7","field":"parent","line":1,"op":0}
{"ops":[{"op":"children","parent":"spiffe://ex.org/a","id":1}]} => {"code":"L5","field":"id","line":1,"op":0}
{"ops":[{"op":"children","parent":"spiffe://ex.org"}]} => {"code":"B4","line":1,"op":0}
{"ops":[{"op":"prune","before":0}]} => 1; prune 0
{"ops":[{"op":"prune","before":7}]} => 1; prune 7
{"ops":[{"op":"prune","before":18446744073709551615}]} => 1; prune 18446744073709551615
{"ops":[{"op":"prune","before":-0}]} => {"code":"L5","field":"before","line":1,"op":0}
{"ops":[{"op":"prune","before":-1}]} => {"code":"L5","field":"before","line":1,"op":0}
{"ops":[{"op":"prune","before":1.0}]} => {"code":"L5","field":"before","line":1,"op":0}
{"ops":[{"op":"prune","before":0.0}]} => {"code":"L5","field":"before","line":1,"op":0}
{"ops":[{"op":"prune","before":1e2}]} => {"code":"L5","field":"before","line":1,"op":0}
{"ops":[{"op":"prune","before":1E0}]} => {"code":"L5","field":"before","line":1,"op":0}
{"ops":[{"op":"prune","before":18446744073709551616}]} => {"code":"L5","field":"before","line":1,"op":0}
{"ops":[{"op":"prune","before":"7"}]} => {"code":"L5","field":"before","line":1,"op":0}
{"ops":[{"op":"prune","before":true}]} => {"code":"L5","field":"before","line":1,"op":0}
{"ops":[{"op":"prune","before":[]}]} => {"code":"L5","field":"before","line":1,"op":0}
{"ops":[{"op":"prune","before":null}]} => {"code":"L5","field":"before","line":1,"op":0}
{"ops":[{"op":"prune"}]} => {"code":"L5","field":"before","line":1,"op":0}
{"ops":[{"op":"prune","before":-1,"after":1}]} => {"code":"L5","field":"before","line":1,"op":0}
{"ops":[{"op":"prune","before":1,"after":1}]} => {"code":"L5","field":"after","line":1,"op":0}
"#;

/// Lines of operations on agents and on bundles.
const AGENTS_AND_BUNDLES: &str = r#"
# operations that name an agent
{"ops":[{"op":"show_agent","agent":"spiffe://ex.org/spire/agent/n1"}]} => 1; show_agent "spiffe://ex.org/spire/agent/n1"
{"ops":[{"op":"show_agent"}]} => {"code":"L5","field":"agent","line":1,"op":0}
{"ops":[{"op":"show_agent","agent":null}]} => {"code":"L5","field":"agent","line":1,"op":0}
{"ops":[{"op":"show_agent","agent":"spiffe://ex.org/a b","selectors":[]}]} => {"code":"I8","field":"agent","line":1,"op":0}
{"ops":[{"op":"show_agent","agent":"spiffe://ex.org/spire/agent/n1","selectors":[]}]} => {"code":"L5","field":"selectors","line":1,"op":0}
{"ops":[{"op":"show_agent","agent":"spiffe://b.org/spire/agent/n1"}]} => {"code":"B3","line":1,"op":0}
{"ops":[{"op":"show_agent","agent":"spiffe://ex.org"}]} => {"code":"B10","line":1,"op":0}
{"ops":[{"op":"authorised","agent":"spiffe://ex.org/spire/agent/n1"}]} => 1; authorised "spiffe://ex.org/spire/agent/n1"
{"ops":[{"op":"authorised"}]} => {"code":"L5","field":"agent","line":1,"op":0}
{"ops":[{"op":"authorised","agent":null}]} => {"code":"L5","field":"agent","line":1,"op":0}
{"ops":[{"op":"authorised","agent":"spiffe://ex.org/a b","selectors":[]}]} => {"code":"I8","field":"agent","line":1,"op":0}
{"ops":[{"op":"authorised","agent":"spiffe://ex.org/spire/agent/n1","selectors":[]}]} => {"code":"L5","field":"selectors","line":1,"op":0}
{"ops":[{"op":"authorised","agent":"spiffe://b.org/spire/agent/n1"}]} => {"code":"B3","line":1,"op":0}
{"ops":[{"op":"authorised","agent":"spiffe://ex.org"}]} => {"code":"B10","line":1,"op":0}
{"ops":[{"op":"trust","agent":"spiffe://ex.org/spire/agent/n1"}]} => 1; trust "spiffe://ex.org/spire/agent/n1"
{"ops":[{"op":"trust"}]} => {"code":"L5","field":"agent","line":1,"op":0}
{"ops":[{"op":"trust","agent":null}]} => {"code":"L5","field":"agent","line":1,"op":0}
{"ops":[{"op":"trust","agent":"spiffe://ex.org/a b","selectors":[]}]} => {"code":"I8","field":"agent","line":1,"op":0}
{"ops":[{"op":"trust","agent":"spiffe://ex.org/spire/agent/n1","selectors":[]}]} => {"code":"L5","field":"selectors","line":1,"op":0}
{"ops":[{"op":"trust","agent":"spiffe://b.org/spire/agent/n1"}]} => {"code":"B3","line":1,"op":0}
{"ops":[{"op":"trust","agent":"spiffe://ex.org"}]} => {"code":"B10","line":1,"op":0}
{"ops":[{"op":"drop_agent","agent":"spiffe://ex.org/spire/agent/n1"}]} => 1; drop_agent "spiffe://ex.org/spire/agent/n1"
{"ops":[{"op":"drop_agent"}]} => {"code":"L5","field":"agent","line":1,"op":0}
{"ops":[{"op":"drop_agent","agent":null}]} => {"code":"L5","field":"agent","line":1,"op":0}
{"ops":[{"op":"drop_agent","agent":"spiffe://ex.org/a b","selectors":[]}]} => {"code":"I8","field":"agent","line":1,"op":0}
{"ops":[{"op":"drop_agent","agent":"spiffe://ex.org/spire/agent/n1","selectors":[]}]} => {"code":"L5","field":"selectors","line":1,"op":0}
{"ops":[{"op":"drop_agent","agent":"spiffe://b.org/spire/agent/n1"}]} => {"code":"B3","line":1,"op":0}
{"ops":[{"op":"drop_agent","agent":"spiffe://ex.org"}]} => {"code":"B10","line":1,"op":0}

# set_agent
{"ops":[{"op":"set_agent","selectors":["u:2","a!:y","u:1","a:x","u:2"],"agent":"spiffe://ex.org/spire/agent/n1"}]} => 1; set_agent "spiffe://ex.org/spire/agent/n1" ["a:x","a!:y","u:1","u:2"]
{"ops":[{"op":"set_agent","selectors":["\u00e9:1","z:1"],"agent":"spiffe://ex.org/spire/agent/n1"}]} => 1; set_agent "spiffe://ex.org/spire/agent/n1" ["z:1","é:1"]
{"ops":[{"op":"set_agent","selectors":["𐀀:1","～:1"],"agent":"spiffe://ex.org/spire/agent/n1"}]} => 1; set_agent "spiffe://ex.org/spire/agent/n1" ["～:1","𐀀:1"]
{"ops":[{"op":"set_agent","agent":"spiffe://ex.org/spire/agent/n1","selectors":[]}]} => 1; set_agent "spiffe://ex.org/spire/agent/n1" []
{"ops":[{"op":"set_agent","agent":"spiffe://ex.org/spire/agent/n1","selectors":null}]} => {"code":"L5","field":"selectors","line":1,"op":0}

# show_bundle, set_bundle and drop_bundle
{"ops":[{"op":"show_bundle","domain":"b.org"}]} => 1; show_bundle "b.org"
{"ops":[{"op":"show_bundle","domain":"ex.org"}]} => 1; show_bundle "ex.org"
{"ops":[{"op":"show_bundle"}]} => {"code":"L5","field":"domain","line":1,"op":0}
{"ops":[{"op":"show_bundle","domain":null}]} => {"code":"L5","field":"domain","line":1,"op":0}
{"ops":[{"op":"show_bundle","domain":["b.org"]}]} => {"code":"L5","field":"domain","line":1,"op":0}
{"ops":[{"op":"show_bundle","domain":""}]} => {"code":"I3","field":"domain","line":1,"op":0}
{"ops":[{"op":"show_bundle","domain":"B.org"}]} => {"code":"I5","field":"domain","line":1,"op":0}
{"ops":[{"op":"set_bundle","text":7}]} => {"code":"L5","field":"domain","line":1,"op":0}
{"ops":[{"op":"set_bundle","domain":null,"text":7}]} => {"code":"L5","field":"domain","line":1,"op":0}
{"ops":[{"op":"set_bundle","domain":["b.org"],"text":7}]} => {"code":"L5","field":"domain","line":1,"op":0}
{"ops":[{"op":"set_bundle","domain":"","text":7}]} => {"code":"I3","field":"domain","line":1,"op":0}
{"ops":[{"op":"set_bundle","domain":"B.org","text":7}]} => {"code":"I5","field":"domain","line":1,"op":0}
{"ops":[{"op":"drop_bundle","mode":7}]} => {"code":"L5","field":"domain","line":1,"op":0}
{"ops":[{"op":"drop_bundle","domain":null,"mode":7}]} => {"code":"L5","field":"domain","line":1,"op":0}
{"ops":[{"op":"drop_bundle","domain":["b.org"],"mode":7}]} => {"code":"L5","field":"domain","line":1,"op":0}
{"ops":[{"op":"drop_bundle","domain":"","mode":7}]} => {"code":"I3","field":"domain","line":1,"op":0}
{"ops":[{"op":"drop_bundle","domain":"B.org","mode":7}]} => {"code":"I5","field":"domain","line":1,"op":0}
{"ops":[{"op":"show_bundle","domain":"b.org","text":""}]} => {"code":"L5","field":"text","line":1,"op":0}
{"ops":[{"op":"set_bundle","domain":"b.org","text":"a\u0000\n"}]} => 1; set_bundle "b.org" "a\u0000\n"
{"ops":[{"op":"set_bundle","domain":"b.org","text":""}]} => 1; set_bundle "b.org" ""
{"ops":[{"op":"set_bundle","domain":"b.org"}]} => {"code":"L5","field":"text","line":1,"op":0}
{"ops":[{"op":"set_bundle","domain":"b.org","text":null}]} => {"code":"L5","field":"text","line":1,"op":0}
{"ops":[{"op":"set_bundle","domain":"b.org","text":{},"mode":1}]} => {"code":"L5","field":"text","line":1,"op":0}
{"ops":[{"op":"set_bundle","domain":"b.org","text":"","mode":1}]} => {"code":"L5","field":"mode","line":1,"op":0}
{"ops":[{"op":"set_bundle","domain":"ex.org","text":""}]} => {"code":"B11","line":1,"op":0}
{"ops":[{"op":"drop_bundle","domain":"b.org"}]} => 1; drop_bundle "b.org" Restrict
{"ops":[{"op":"drop_bundle","domain":"b.org","mode":null}]} => 1; drop_bundle "b.org" Restrict
{"ops":[{"op":"drop_bundle","mode":"restrict","domain":"b.org"}]} => 1; drop_bundle "b.org" Restrict
{"ops":[{"op":"drop_bundle","mode":"delete","domain":"b.org"}]} => 1; drop_bundle "b.org" Delete
{"ops":[{"op":"drop_bundle","mode":"dissociate","domain":"b.org"}]} => 1; drop_bundle "b.org" Dissociate
{"ops":[{"op":"drop_bundle","domain":"b.org","mode":"diss\u006fciate"}]} => 1; drop_bundle "b.org" Dissociate
{"ops":[{"op":"drop_bundle","domain":"b.org","mode":"","zz":1}]} => {"code":"L5","field":"mode","line":1,"op":0}
{"ops":[{"op":"drop_bundle","domain":"b.org","mode":"Delete","zz":1}]} => {"code":"L5","field":"mode","line":1,"op":0}
{"ops":[{"op":"drop_bundle","domain":"b.org","mode":"keep","zz":1}]} => {"code":"L5","field":"mode","line":1,"op":0}
{"ops":[{"op":"drop_bundle","domain":"b.org","mode":"delete ","zz":1}]} => {"code":"L5","field":"mode","line":1,"op":0}
{"ops":[{"op":"drop_bundle","domain":"b.org","mode":7,"zz":1}]} => {"code":"L5","field":"mode","line":1,"op":0}
{"ops":[{"op":"drop_bundle","domain":"b.org","mode":["delete"],"zz":1}]} => {"code":"L5","field":"mode","line":1,"op":0}
{"ops":[{"op":"drop_bundle","domain":"b.org","mode":false,"zz":1}]} => {"code":"L5","field":"mode","line":1,"op":0}
{"ops":[{"op":"drop_bundle","domain":"b.org","mode":"delete","text":1,"Mode":1}]} => {"code":"L5","field":"Mode","line":1,"op":0}
{"ops":[{"op":"drop_bundle","domain":"ex.org","mode":"delete"}]} => {"code":"B11","line":1,"op":0}
"#;

#[test]
fn operations_on_entries_are_read_key_by_key(rt: HostRuntime) -> Result<(), Fail> {
    asserts_table(&rt, rt.alloc(), ReadAs::Request, ENTRIES)
}

#[test]
fn operations_on_agents_and_bundles_are_read_key_by_key(rt: HostRuntime) -> Result<(), Fail> {
    asserts_table(&rt, rt.alloc(), ReadAs::Request, AGENTS_AND_BUNDLES)
}

/// Lines with texts of 1,024 and of 65,536 bytes, written as escapes, and with one more character each.
const LONG_TEXTS: &str = r#"
{"ops":[{"op":"create","parent":"spiffe://ex.org/a","identity":"spiffe://ex.org/b","selectors":["u:1"],"hint":"«512*\u00e9»"}]} => 1; create "76b8e0ad-a0f1-4d90-805d-6ae55386bd28" "spiffe://ex.org/a" "spiffe://ex.org/b" ["u:1"] "«512*é»" [] 0
{"ops":[{"op":"create","parent":"spiffe://ex.org/a","identity":"spiffe://ex.org/b","selectors":["u:1"],"hint":"«513*\u00e9»"}]} => {"code":"B8","line":1,"op":0}
{"ops":[{"op":"set_bundle","domain":"b.org","text":"«32768*\u00e9»"}]} => 1; set_bundle "b.org" "«32768*é»"
{"ops":[{"op":"set_bundle","domain":"b.org","text":"«32769*\u00e9»"}]} => {"code":"B12","line":1,"op":0}
"#;

#[test]
fn lengths_of_texts_are_of_bytes_after_escapes(rt: HostRuntime) -> Result<(), Fail> {
    asserts_table(&rt, rt.alloc(), ReadAs::Request, LONG_TEXTS)
}

/// Lines with long names, written as escapes.
const LONG_NAMES: &str = r#"
# an ID of 2,048 bytes, and one of 2,049
{"ops":[{"op":"children","parent":"spiffe://ex.org/«2032*\u0078»"}]} => 1; children "spiffe://ex.org/«2032*x»"
{"ops":[{"op":"children","parent":"spiffe://ex.org/«2032*\u0078»x"}]} => {"code":"I1","field":"parent","line":1,"op":0}
{"ops":[{"op":"show_agent","agent":"spiffe://ex.org/«2032*\u0078»\u0078"}]} => {"code":"I1","field":"agent","line":1,"op":0}

# a trust domain of 255 bytes, and one of 256
{"ops":[{"op":"show_bundle","domain":"b«254*\u0078»"}]} => 1; show_bundle "b«254*x»"
{"ops":[{"op":"show_bundle","domain":"b«254*\u0078»b"}]} => {"code":"I4","field":"domain","line":1,"op":0}
{"ops":[{"op":"update","id":"00000000-0000-0000-0000-000000000001","parent":"spiffe://ex.org/a","identity":"spiffe://ex.org/b","selectors":["u:1"],"domains":["b«254*\u0078»","a"]}]} => 1; update "00000000-0000-0000-0000-000000000001" "spiffe://ex.org/a" "spiffe://ex.org/b" ["u:1"] "" ["a","b«254*x»"] 0 any
{"ops":[{"op":"update","id":"00000000-0000-0000-0000-000000000001","parent":"spiffe://ex.org/a","identity":"spiffe://ex.org/b","selectors":["u:1"],"domains":["b«254*\u0078»\u0078","a"]}]} => {"code":"I4","field":"domains","line":1,"op":0}
"#;

#[test]
fn lengths_of_names_are_of_bytes_after_escapes(rt: HostRuntime) -> Result<(), Fail> {
    asserts_table(&rt, rt.alloc(), ReadAs::Request, LONG_NAMES)
}
