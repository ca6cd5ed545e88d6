ghost use Rattle.std.specs.Prelude.{◌↔◌, IsTrue};
ghost use Rattle.ga_requests.specs.Tables.{IsMethod, IsProtocol, IsExtension};

/// The methods of requests, of HTTP and WebDAV. The most frequent stand first.
const METHODS: [&[u8]; 20] = [
    b"GET",
    b"HEAD",
    b"POST",
    b"PUT",
    b"DELETE",
    b"CONNECT",
    b"OPTIONS",
    b"TRACE",
    b"PATCH",
    b"PROPFIND",
    b"PROPPATCH",
    b"MKCOL",
    b"COPY",
    b"MOVE",
    b"LOCK",
    b"UNLOCK",
    b"REPORT",
    b"SEARCH",
    b"ACL",
    b"MKCALENDAR",
];

/// The protocols of requests, as servers log them.
const PROTOCOLS: [&[u8]; 6] = [
    b"HTTP/1.0",
    b"HTTP/1.1",
    b"HTTP/2",
    b"HTTP/2.0",
    b"HTTP/3",
    b"HTTP/3.0",
];

/// The endings of static files (own profile).
const EXTENSIONS: [&[u8]; 45] = [
    b".css", b".js", b".mjs", b".map", b".jpg", b".jpeg", b".png", b".gif", b".ico", b".svg",
    b".webp", b".bmp", b".tif", b".tiff", b".avif", b".pdf", b".csv", b".txt", b".doc", b".docx",
    b".xls", b".xlsx", b".ppt", b".pptx", b".woff", b".woff2", b".ttf", b".otf", b".eot", b".mp3",
    b".mp4", b".ogg", b".webm", b".mpeg", b".mpg", b".swf", b".zip", b".gz", b".tgz", b".tar",
    b".rar", b".xz", b".exe", b".dmg", b".iso",
];

/// Whether the text is a known request method, byte for byte.
pub fn is_method(text: &[u8]) -> bool
    ensures { IsTrue result ↔ IsMethod text.now }
{
    METHODS.contains(&text)
}

/// Whether the text is a known protocol, byte for byte.
pub fn is_protocol(text: &[u8]) -> bool
    ensures { IsTrue result ↔ IsProtocol text.now }
{
    PROTOCOLS.contains(&text)
}

/// Whether the text is a known ending of static files, with its dot, byte for byte.
pub(crate) fn is_extension(text: &[u8]) -> bool
    ensures { IsTrue result ↔ IsExtension text.now }
{
    EXTENSIONS.contains(&text)
}
